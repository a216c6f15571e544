// A machine in words.
use machines::atom::Atom;
use machines::machine::{Machine, Summary, summarize};
use std::io;

// The numbers of a machine as a whole, and of a table its edges, to the end of the line.
pub fn print_summary(rt: &impl Print, sum: Summary, edges: Option<u32>) -> io::Result<()> {
    let Summary {
        locations,
        clocks,
        width,
        labels,
    } = sum;
    print!(rt; "{locations} locations, {clocks} clocks, ")?;
    if let Some(edges) = edges {
        print!(rt; "{edges} edges, ")?;
    }
    println!(rt; "width {width}, labels 0x{labels:08x}")
}

// A machine and the name that it goes by.
#[derive(Drop)]
struct Listing<'a, R, M> {
    rt: &'a R,
    name: &'a str,
    machine: &'a M,
}

impl<R: Print, M: Machine> Listing<'_, R, M> {
    // The atoms of the k-th edge at the location, each after a space.
    fn print_atoms(&self, location: u32, k: u32, count: u32) -> io::Result<()> {
        if count > 0 {
            print!(self.rt; " when")?;
        }
        let atoms = (0..count).filter_map(|i| self.machine.atom(location, k, i));
        for Atom {
            clock,
            comparison,
            constant,
        } in atoms {
            print!(self.rt; " {clock}{comparison}{constant}")?;
        }
        Ok(())
    }

    // The k-th edge at the location, on a line.
    fn print_edge(&self, location: u32, k: u32) -> io::Result<()> {
        let Some((label, target, resets, atoms)) = self.machine.edge_head(location, k) else {
            return Ok(());
        };
        let name = self.name;
        print!(self.rt; "{name} {location}.{k}: label {label} -> {target} resets 0x{resets:02x}")?;
        self.print_atoms(location, k, atoms)?;
        println!(self.rt; "")
    }

    // The edges at the location, a line each: a machine is asked for them by number.
    fn print_location(&self, location: u32) -> io::Result<()> {
        for k in 0..self.machine.edge_count(location).unwrap_or(0) {
            self.print_edge(location, k)?;
        }
        Ok(())
    }
}

// The numbers of the machine, and then a line for each edge, by the number of its location.
pub fn describe(rt: &impl Print, name: &str, machine: &impl Machine) -> io::Result<()> {
    let sum = summarize(machine);
    print!(rt; "{name}: ")?;
    print_summary(rt, sum, None)?;
    let listing = Listing { rt, name, machine };
    for location in 0..sum.locations {
        listing.print_location(location)?;
    }
    Ok(())
}
