// Sets of labels as masks of 32 bits.
ghost use Rattle.std.specs.Prelude.{◌≡◌};
ghost use Rattle.std.specs.List.{slice_get};
ghost use Rattle.machines.specs.Automaton.{has};
ghost use Rattle.machines.specs.Deadline.{labels_in};

// Whether the mask has the label.
pub fn has_label(mask: u32, label: u8) -> bool
    ensures { result ≡ has mask label }
{
    if label > 31 {
        return false;
    }
    (mask >> label) & 1 == 1
}

// The mask's k-th label, lowest first.
pub fn kth_label(mask: u32, k: u32) -> Option<u8>
    ensures { result ≡ slice_get (labels_in mask) k }
{
    if k >= mask.count_ones() {
        return None;
    }
    let rest = (0..k).fold(mask, |rest, _| rest & rest.wrapping_sub(1));
    Some(rest.trailing_zeros() as u8)
}
