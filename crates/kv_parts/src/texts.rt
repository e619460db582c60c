// Long texts that the lines spell short.

use crate::faults::Fault;
use kv_syn::List;
use std::alloc::Global;

/// Names for texts.
#[derive(Drop)]
pub struct Texts {
    named: List<(String, String)>,
}

impl Texts {
    /// No name stands for a text.
    pub fn new(alloc: Global) -> Texts {
        Texts {
            named: List::new(alloc),
        }
    }

    /// `NAME = COUNT of PIECE from START`: the name stands for the start, put so many times in the place of each `*` of
    /// the piece.
    pub fn put(&mut self, alloc: Global, text: &str) -> Result<(), Fault> {
        let (name, rest) = text.split_once(" = ").ok_or(Fault::Unread)?;
        let (count, rest) = rest.split_once(" of ").ok_or(Fault::Unread)?;
        let (piece, start) = rest.split_once(" from ").ok_or(Fault::Unread)?;
        let count = count.parse::<u32>().unwrap_or(0);
        let mut built = String::from_str(alloc, start)?;
        for _turn in 0..count {
            built = replaced(alloc, piece, "*", built.as_str())?;
        }
        let name = String::from_str(alloc, name)?;
        Ok(self.named.push((name, built))?)
    }

    /// The line with the texts in place of their names.
    pub fn expanded(&self, alloc: Global, line: &str) -> Result<String, Fault> {
        let mut text = String::from_str(alloc, line)?;
        for (name, built) in self.named.items() {
            text = replaced(alloc, text.as_str(), name.as_str(), built.as_str())?;
        }
        Ok(text)
    }
}

/// The text with another one in each place where the name stands.
fn replaced(alloc: Global, text: &str, name: &str, by: &str) -> Result<String, Fault> {
    let mut all = String::new(alloc);
    for (place, part) in text.split(name).enumerate() {
        if place > 0 {
            all.push_str(by)?;
        }
        all.push_str(part)?;
    }
    Ok(all)
}
