// Reads a script of machines and prints a line for each statement.
#![tactic(auto)]

mod describe;
mod lines;
mod script;
mod trouble;

fn main(rt: HostRuntime) -> anyhow::Result<()> {
    script::run(&rt)
}
