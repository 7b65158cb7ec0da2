//! The list of types by its texts: each line of the input is a change of the list or a question on it, and its answer is printed.
#![tactic(auto)]

mod answer;
mod change;

use cm_basetypes::base_types::base_types;
use std::io;

// The word with which a line begins, and what stands behind it.
fn parts(line: &str) -> (&str, &str) {
    match line.split_once(' ') {
        Some(parts) => parts,
        None => (line, ""),
    }
}

fn main(rt: HostRuntime) -> io::Result<()> {
    let alloc = rt.alloc();
    let mut types = base_types(alloc)?;
    for line in rt.lines(alloc) {
        let line = line?;
        let (word, text) = parts(line.as_str());
        if change::is_change(word) {
            let (next, told) = change::next(alloc, types, word, text)?;
            types = next;
            println!(rt; "{line}: {told}")?;
        } else {
            let said = answer::answer(alloc, &types, word, text)?;
            println!(rt; "{line}: {said}")?;
        }
    }
    Ok(())
}
