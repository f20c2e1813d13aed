// Prints what a reading of standard input keeps, as an outline (docs/RULES.md, 'Outline').
#![tactic(auto)]

fn main() {
    // One byte more than there is room for tells a script that is too long.
    let mut input = [0u8; 4097];
    let n = io::read_full(0, &mut input);
    let mut out = [0u8; form::OUTLINE_BYTES];
    let k = form::outline(&input[..n], &mut out);
    io::write_all(1, &out[..k]);
}
