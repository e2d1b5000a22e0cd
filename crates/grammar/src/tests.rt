// The limits at both sides, two faults at once, what a refused line leaves, and leases.
use crate::{Closed, Draft, Lease};
use lines::{Allowed, Stop, read_line};
use std::alloc::Global;
use std::fmt::Write;
use std::process::Abort;
use std::test::Fail;

const ANY: Allowed = Allowed {
    grammar: true,
    scale: true,
    ladder: true,
};

// Takes each line of the text, and writes the number and the byte of each refusal.
fn told(heap: Global, draft: &mut Draft, text: &str) -> Result<String, Fail> {
    let mut out = String::new(heap);
    for line in text.split('\n') {
        let Ok(Some(form)) = read_line(heap, line.as_bytes(), ANY) else {
            return Err(Fail::new("no form"));
        };
        match draft.take(line.as_bytes(), &form) {
            Ok(()) => writeln!(out, "taken")?,
            Err(Stop::Memory) => return Err(Fail::new("no memory")),
            Err(Stop::Refusal(fault)) => {
                let number = fault.refusal.number();
                let byte = fault.byte;
                writeln!(out, "{number} {byte}")?;
            }
        }
    }
    Ok(out)
}

// Adds a rule for each of the first `n` words; says how many were taken before the first refusal.
fn fill(draft: &mut Draft, category: &[u8], n: u16) -> u16 {
    for k in 0..n {
        if draft.add_lexical(1, category, &k.to_le_bytes()).is_err() {
            return k;
        }
    }
    n
}

#[test]
fn categories_end_at_the_limit(rt: HostRuntime) -> Result<(), Fail> {
    let mut draft = Draft::new(rt.alloc(), 7, 100);
    for k in 0..64u8 {
        assert!(rt; draft.add_lexical(1, &[k], b"w").is_ok());
    }
    // the limit comes before the top given twice
    let out = told(rt.alloc(), &mut draft, "(top A)\n(lex 1 (A w))")?;
    assert_eq!(rt; out.as_str(), "6 6\n6 9\n");
    assert!(rt; draft.add_top(&[63]).is_ok() && draft.categories.len() == 64);
    Ok(())
}

#[test]
fn a_refused_line_leaves_no_name(rt: HostRuntime) -> Result<(), Fail> {
    let mut draft = Draft::new(rt.alloc(), 7, 2);
    let out = told(
        rt.alloc(),
        &mut draft,
        "(top A)\n(rule 1 (A B C))\n(rule 1 (C C))\n(top B)\n(rule 1 (A D D))\n(lex 1 (C w))\n(rule 1 (A C))\n(top C)\n(scale sum)",
    )?;
    assert_eq!(rt;
        out.as_str(),
        "taken\n6 14\n8 1\n9 1\ntaken\n6 9\n6 12\n6 6\ntaken\n"
    );
    assert!(rt; draft.categories.len() == 2 && draft.words.len() == 0);
    Ok(())
}

#[test]
fn words_and_rules_end_at_the_limit(rt: HostRuntime) -> Result<(), Fail> {
    let mut draft = Draft::new(rt.alloc(), 7, 64);
    assert_eq!(rt; fill(&mut draft, b"A", 600), 512);
    assert_eq!(rt; fill(&mut draft, b"B", 511), 511);
    // the 1,025th rule is one too many even if it is also a duplicate, a chain to itself, or has a new word
    let out = told(
        rt.alloc(),
        &mut draft,
        "(lex 1 (C x))\n(rule 1 (A B))\n(rule 2 (A B))\n(rule 2 (A A))\n(lex 2 (A x))\n(top B)",
    )?;
    assert_eq!(rt; out.as_str(), "6 11\ntaken\n6 1\n6 1\n6 1\ntaken\n");
    assert_eq!(rt; draft.categories.len(), 2);
    Ok(())
}

#[test]
fn rules_stand_once(rt: HostRuntime) -> Result<(), Fail> {
    let mut draft = Draft::new(rt.alloc(), 7, 64);
    let out = told(
        rt.alloc(),
        &mut draft,
        "(rule 1 (A B))\n(rule 9 (A B))\n(rule 1 (B A))\n(rule 1 (A B B))\n(rule 2 (A B B))\n(lex 1 (A B))\n(lex 0 (A B))\n(rule 1 (B B))",
    )?;
    assert_eq!(rt;
        out.as_str(),
        "taken\n7 1\ntaken\ntaken\n7 1\ntaken\n7 1\n8 1\n"
    );
    Ok(())
}

fn closed(rt: &impl Abort, heap: Global) -> Result<Closed, Fail> {
    let Err((fault, mut draft)) = Draft::new(heap, 7, 64).close() else {
        return Err(Fail::new("closed without a top"));
    };
    assert!(rt; fault.refusal.number() == 9 && fault.line == 0 && fault.byte == 0);
    let out = told(
        heap,
        &mut draft,
        "(lex 3 (N time))\n(lex 5 (V flies))\n(top V)",
    )?;
    assert_eq!(rt; out.as_str(), "taken\ntaken\ntaken\n");
    match draft.close() {
        Ok(grammar) => Ok(grammar),
        Err(_) => Err(Fail::new("not closed")),
    }
}

#[test]
fn a_closed_grammar_is_asked(rt: HostRuntime) -> Result<(), Fail> {
    let grammar = closed(&rt, rt.alloc())?;
    assert_eq!(rt; grammar.word(b"flies"), Some(1));
    assert_eq!(rt; grammar.word(b"fly"), None);
    assert!(rt;
        grammar.word_name(0) == b"time".as_slice()
            && grammar.word_name(2).is_empty()
            && grammar.category_name(1) == b"V".as_slice()
    );
    match grammar.reopen() {
        Ok(mut draft) => {
            assert_eq!(rt; told(rt.alloc(), &mut draft, "(top N)")?.as_str(), "9 1\n");
            Ok(())
        },
        Err(_) => Err(Fail::new("not reopened")),
    }
}

fn spend(lease: Lease) {
    let Lease { number: _ } = lease;
}

#[test]
fn eight_leases_are_out(rt: HostRuntime) -> Result<(), Fail> {
    let mut grammar = closed(&rt, rt.alloc())?;
    for k in 0..10u8 {
        match grammar.draw() {
            Ok(lease) => spend(lease),
            Err(refusal) => assert!(rt; k >= 8 && refusal.number() == 11),
        }
    }
    match grammar.take_in(Lease { number: 8 }) {
        Ok(()) => return Err(Fail::new("another's lease taken")),
        Err((refusal, lease)) => {
            spend(lease);
            assert_eq!(rt; refusal.number(), 12);
        }
    }
    if let Err((_, lease)) = grammar.take_in(Lease { number: 7 }) {
        spend(lease);
    }
    match grammar.reopen() {
        Ok(_) => Err(Fail::new("reopened with leases out")),
        Err((refusal, grammar)) => {
            assert!(rt; grammar.out == 7 && refusal.number() == 10);
            Ok(())
        },
    }
}
