//! A script in parts.

ghost use Rattle.std.specs.Prelude.{◌≡◌, ◌++◌, ◌∷◌, ℕ, List, [], map, nat_eq, IfOk, OnOk};
ghost use Rattle.paris_parts.specs.Parts.{is_cut_line, cut, parts};

use std::alloc::{AllocError, Global};
use std::marker::Model;
use std::mem;

/// The lines of a part of a script. A clause sees the bytes of each.
#[derive(Drop)]
pub struct Part {
    lines: Vec<Vec<u8>>,
}

impl Model for Part {
    ghost use Rattle.std.specs.Prelude.{ℕ, List, map};

    ghost Value = { List (List ℕ) };

    ghost view = { λ p. map (λ line. line.items) p.lines.items };
}

impl Part {
    fn new(alloc: Global) -> Part
        ensures { result ≡ [] }
    {
        Part {
            lines: Vec::new(alloc),
        }
    }

    /// Adds a copy of a line.
    fn push(&mut self, line: &[u8]) -> Result<(), AllocError>
        ensures { OnOk result (self.new ≡ self.old ++ line.now ∷ []) }
    {
        let alloc = *self.lines.allocator();
        let line = Vec::from_slice(alloc, line)?;
        self.lines.push(line)?;
        Ok(())
    }

    /// The lines.
    pub fn lines(&self) -> &[Vec<u8>]
        ensures { map (λ line. line.items) result.now ≡ self.now }
    {
        self.lines.as_slice()
    }
}

fn is_line_feed(byte: u8) -> bool
    ensures { result ≡ nat_eq byte 10 }
{
    byte == b'\n'
}

fn is_cut(line: &[u8]) -> bool
    ensures { result ≡ is_cut_line line.now }
{
    line == b"session".as_slice()
}

/// Takes a line, which ends the part that has begun or is one more of it.
fn take_line(parts: &mut Vec<Part>, begun: &mut Part, line: &[u8]) -> Result<(), AllocError>
    ensures { OnOk result ((rest : List (List ℕ)) → parts.new.items ++ cut begun.new rest ≡ parts.old.items ++ cut begun.old (line.now ∷ rest)) }
{
    if is_cut(line) {
        let alloc = *parts.allocator();
        parts.push(mem::replace(begun, Part::new(alloc)))?;
        return Ok(());
    }
    begun.push(line)
}

/// The parts of a script, which is cut at each line that says just `session`.
pub fn parts_of(alloc: Global, script: &[u8]) -> Result<Vec<Part>, AllocError>
    ensures { IfOk result (λ all. all.items ≡ parts script.now) }
{
    let mut all = Vec::new(alloc);
    let mut begun = Part::new(alloc);
    for line in script.split(|byte| is_line_feed(*byte)) {
        take_line(&mut all, &mut begun, line)?;
    }
    all.push(begun)?;
    Ok(all)
}
