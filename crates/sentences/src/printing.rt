// The lines that are written: refusals and trees.
ghost use Rattle.std.specs.Prelude.{◌≡◌, ◌++◌, Err, OnOk, MatchResult};
ghost use Rattle.lines.specs.declared.fault.Stop.TheVariants.{Memory};
ghost use Rattle.grammar.specs.Listed.{listed};
ghost use Rattle.sentences.specs.Written.{or_fault, refusal_line, title, spelled, TreeAdded};

use crate::spelling::Spelt;
use lines::{LineFault, Stop};
use refusals::Refusal;
use render::show;
use search::Tree;
use std::alloc::AllocError;
use std::fmt::Display;
use tree::Node;

// What was read of a line, or its fault, which is written; only want of memory is an error.
pub fn faulted<T>(read: Result<T, Stop<LineFault>>) -> Result<Result<T, LineFault>, AllocError>
    ensures { MatchResult result (λ told. read ≡ or_fault told) (λ _. read ≡ Err Memory) }
{
    match read {
        Ok(said) => Ok(Ok(said)),
        Err(Stop::Refusal(fault)) => Ok(Err(fault)),
        Err(Stop::Memory) => Err(AllocError),
    }
}

// Writes (refused NUMBER LINE).
pub fn refused(out: &mut Vec<u8>, refusal: Refusal, line: usize) -> Result<(), AllocError>
    ensures { OnOk result (out.new.items ≡ out.old.items ++ refusal_line refusal line) }
{
    let number = refusal.number();
    let text = format!(in *out.allocator(); "(refused {number} {line})\n")?;
    out.extend_from_slice(text.as_bytes())
}

// Writes (tree COST RUNG KEPT TREE).
pub fn handed<Cost: Display>(
    out: &mut Vec<u8>,
    names: &Spelt<'_>,
    tree: &Tree<Cost>,
    nodes: &[Node],
) -> Result<(), AllocError>
    ensures { OnOk result (TreeAdded (title (listed names.now.grammar.now.categories)) (spelled (listed names.now.grammar.now.words) names.now.words.now) nodes.now (Cost.output tree.now.cost) tree.now.rung tree.now.kept out.old.items out.new.items) }
{
    let Tree {
        cost,
        rung,
        kept,
        ..
    } = tree;
    let head = format!(in *out.allocator(); "(tree {cost} {rung} {kept} ")?;
    out.extend_from_slice(head.as_bytes())?;
    let _left = show(names, nodes, out)?;
    out.extend_from_slice(b")\n")
}
