// A tree as bracketed text, from its nodes.
#![tactic(auto)]

ghost use Rattle.std.specs.Prelude.{◌≡◌, ℕ, ◌≤◌, List, ◌++◌, length, IfOk, codes, OnOk};
ghost use Rattle.render.specs.Render.{Shows};
ghost use Rattle.render.specs.Read.{ReadsBack};

use std::alloc::AllocError;
use tree::{Kind, Node};

// How categories are named and words are spelt; a word goes by its place in the text, from 1 on.
pub trait Spelling {
    ghost titles: { Self → ℕ → List ℕ };

    ghost spellings: { Self → ℕ → List ℕ };

    fn category(&self, category: u8) -> &[u8]
        ensures { result.now ≡ titles self.now category };

    fn word(&self, place: usize) -> &[u8]
        ensures { result.now ≡ spellings self.now place };
}

fn open<S: Spelling>(names: &S, category: u8, out: &mut Vec<u8>) -> Result<(), AllocError>
    ensures { IfOk result (λ _. out.new.items ≡ out.old.items ++ (codes "(" ++ (S.titles names.now category ++ codes " "))) }
{
    out.extend_from_slice(b"(")?;
    out.extend_from_slice(names.category(category))?;
    out.extend_from_slice(b" ")?;
    Ok(())
}

fn word<S: Spelling>(names: &S, place: usize, out: &mut Vec<u8>) -> Result<(), AllocError>
    ensures { OnOk result (out.new.items ≡ out.old.items ++ (S.spellings names.now place ++ codes ")")) }
{
    out.extend_from_slice(names.word(place))?;
    out.extend_from_slice(b")")?;
    Ok(())
}

// Adds the text of the tree that the nodes begin with; answers the nodes that are left. Nodes that end early end the text.
pub fn show<'a, S: Spelling>(
    names: &S,
    nodes: &'a [Node],
    out: &mut Vec<u8>,
) -> Result<&'a [Node], AllocError>
    ensures fewer { IfOk result (λ left. length left.now ≤ length nodes.now) }
    ensures text { IfOk result (λ left. Shows (S.titles names.now) (S.spellings names.now) nodes.now left.now out.old.items out.new.items) }
{
    let Some((node, others)) = nodes.split_first() else {
        return Ok(nodes);
    };
    open(names, node.category, out)?;
    match node.kind {
        Kind::Word => {
            word(names, usize::from(node.begin), out)?;
            Ok(others)
        }
        Kind::Chain => {
            let left = show(names, others, out)?;
            out.extend_from_slice(b")")?;
            Ok(left)
        }
        Kind::Binary => {
            let middle = show(names, others, out)?;
            out.extend_from_slice(b" ")?;
            let left = show(names, middle, out)?;
            out.extend_from_slice(b")")?;
            Ok(left)
        }
    }
}

// Holds the theorem by its name: the text of a tree, read back, gives its shape.
pub fn reads_back()
    ensures { ReadsBack }
{}
