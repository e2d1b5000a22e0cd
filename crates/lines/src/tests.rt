// Each form, and lines at both sides of each limit, as tables: lines of text, and what is told of them.
use crate::{Allowed, Form, Span, Stop, line_length, read_line};
use std::alloc::{AllocError, Global};
use std::fmt::Write;
use std::test::Fail;

const NONE: Allowed = Allowed {
    grammar: false,
    scale: false,
    ladder: false,
};

fn tell_spans(out: &mut String, weight: u16, spans: &[Span]) -> Result<(), AllocError> {
    writeln!(out, "{weight} {spans:?}")
}

fn tell_form(out: &mut String, form: Form<u16>) -> Result<(), AllocError> {
    match form {
        Form::Top { category } => tell_spans(out, 0, &[category]),
        Form::Chain {
            weight,
            category,
            part,
        } => tell_spans(out, weight, &[category, part]),
        Form::Binary {
            weight,
            category,
            left,
            right,
        } => tell_spans(out, weight, &[category, left, right]),
        Form::Lexical {
            weight,
            category,
            word,
        } => tell_spans(out, weight, &[category, word]),
        Form::Scale(name) => writeln!(out, "{name:?}"),
        Form::Ladder(ceilings) => writeln!(out, "{ceilings:?}"),
        Form::Say(words) => tell_spans(out, 0, &words),
    }
}

// What is told of a line: its form, or the number and the byte of its fault.
fn tell(heap: Global, out: &mut String, line: &[u8], allowed: Allowed) -> Result<(), Fail> {
    match read_line(heap, line, allowed) {
        Ok(Some(form)) => tell_form(out, form)?,
        Ok(None) => writeln!(out, "blank")?,
        Err(Stop::Refusal(fault)) => {
            let number = fault.refusal.number();
            let byte = fault.byte;
            writeln!(out, "{number} {byte}")?;
        }
        Err(Stop::Memory) => return Err(Fail::new("no memory")),
    }
    Ok(())
}

fn tell_all(heap: Global, out: &mut String, text: &str, allowed: Allowed) -> Result<(), Fail> {
    for line in text.split('\n') {
        tell(heap, out, line.as_bytes(), allowed)?;
    }
    Ok(())
}

fn told(heap: Global, text: &str) -> Result<String, Fail> {
    let mut out = String::new(heap);
    tell_all(
        heap,
        &mut out,
        text,
        Allowed {
            grammar: true,
            scale: true,
            ladder: true,
        },
    )?;
    Ok(out)
}

#[test]
fn forms_are_read(rt: HostRuntime) -> Result<(), Fail> {
    let out = told(
        rt.alloc(),
        "  \n(top A)\n ( rule 65535(A B) )\n(rule 0 (A B C))\n(lex 10 (A ~!))\n(scale sum)\n(scale worst)\n(ladder)\n(ladder 4 9)\n(say)\n(say a bc)",
    )?;
    assert_eq!(rt;
        out.as_str(),
        "blank\n0 [Span { start: 5, end: 6 }]\n65535 [Span { start: 14, end: 15 }, Span { start: 16, end: 17 }]\n0 [Span { start: 9, end: 10 }, Span { start: 11, end: 12 }, Span { start: 13, end: 14 }]\n10 [Span { start: 9, end: 10 }, Span { start: 11, end: 13 }]\nSum\nWorst\n[]\n[4, 9]\n0 []\n0 [Span { start: 5, end: 6 }, Span { start: 7, end: 9 }]\n"
    );
    Ok(())
}

#[test]
fn faults_are_told(rt: HostRuntime) -> Result<(), Fail> {
    let out = told(
        rt.alloc(),
        "(top A\t\nabcdefghijklmnopq\u{7f}\n(top abcdefghijklmnopq\n)(top A\n(top A))x(\n(tip (A)\n(top)\n() \n(top A B)\n(top (A))\ntop A\n(top A) x\n(rule 5 A B)\n(rule 5 (A))\n(rule 5 (A B C D))\n(lex 5 (A w x))\n(scale fast)\n(Top A)\n(say (a))\n(rule 01 (A))\n(rule 01 (A B))\n(rule 65536 (A B))\n(lex -1 (A w))\n(ladder 0 10 00 x)",
    )?;
    assert_eq!(rt;
        out.as_str(),
        "1 7\n1 18\n2 6\n3 1\n3 8\n3 9\n4 6\n4 4\n4 8\n4 6\n4 1\n4 9\n4 9\n4 13\n4 16\n4 13\n4 8\n4 2\n4 6\n4 14\n5 7\n5 7\n5 6\n5 14\n"
    );
    Ok(())
}

// A line of blanks, with letters at its end.
fn long(heap: Global, blanks: usize, letters: usize) -> Result<Vec<u8>, AllocError> {
    let mut line = vec![in heap; b' '; blanks]?;
    for _ in 0..letters {
        line.push(b'x')?;
    }
    Ok(line)
}

#[test]
fn lengths_are_bounded(rt: HostRuntime) -> Result<(), Fail> {
    let heap = rt.alloc();
    let mut out = String::new(heap);
    for (blanks, letters) in [
        (1024, 0),
        (1025, 0),
        (0, 16),
        (0, 17),
        (1020, 17),
        (1020, 16),
        (1025, 17),
    ] {
        let line = long(heap, blanks, letters)?;
        tell(heap, &mut out, &line, NONE)?;
    }
    assert_eq!(rt;
        out.as_str(),
        "blank\n2 1025\n4 1\n2 1\n2 1021\n2 1025\n2 1025\n"
    );
    assert_eq!(rt; line_length(b"(say)\n(top A)"), 5);
    assert_eq!(rt; line_length(b"(say)"), 5);
    Ok(())
}

#[test]
fn heads_have_their_places(rt: HostRuntime) -> Result<(), Fail> {
    let heap = rt.alloc();
    let mut out = String::new(heap);
    for allowed in [
        NONE,
        Allowed {
            grammar: true,
            ..NONE
        },
        Allowed {
            scale: true,
            ..NONE
        },
        Allowed {
            ladder: true,
            ..NONE
        },
    ] {
        tell_all(
            heap,
            &mut out,
            "(top)\n(rule)\n(lex)\n(scale)\n(ladder)\n(say)",
            allowed,
        )?;
    }
    assert_eq!(rt;
        out.as_str(),
        "4 2\n4 2\n4 2\n4 2\n4 2\n0 []\n4 6\n4 7\n4 6\n4 2\n4 2\n0 []\n4 2\n4 2\n4 2\n4 8\n4 2\n0 []\n4 2\n4 2\n4 2\n4 2\n[]\n0 []\n"
    );
    Ok(())
}
