// Whole sentence files and what they are answered.
use crate::answers;
use std::test::Fail;

// Lines that are refused, each for another cause, among lines that are taken.
const REFUSED: &[u8] =
    b"(tip S)\n(top S\n(top S) x\n(top S)\n(rule 65536 (S N V))\n(rule 01 (S N V))\n(rule 65535 (S N V))\n(rule 1 (S N V))\n(rule 1 (N N))\n(top N)\n(lex 3 (N abcdefghijklmnopq))\n(lex 3 (N abcdefghijklmnop))\n(lex 2 (V time))\n\n(scale worst)\n(scale sum)\n(ladder 9 4)\n(ladder)\n(rule 2 (N\tV))\n(say time\n(say abcdefghijklmnop time)\n(rule 1 (A B))\n(say)\n";

const ANSWERS: &[u8] =
    b"(refused 4 1)\n(refused 3 2)\n(refused 4 3)\n(refused 5 5)\n(refused 5 6)\n(refused 7 8)\n(refused 8 9)\n(refused 9 10)\n(refused 2 11)\n(refused 4 16)\n(refused 4 18)\n(refused 1 19)\n(refused 3 20)\n(refused 17 21)\n(refused 4 22)\n(refused 16 23)\n";

#[test]
fn refused_lines(rt: HostRuntime) -> Result<(), Fail> {
    let out = answers(rt.alloc(), REFUSED)?;
    assert!(rt; out.as_slice() == ANSWERS);
    Ok(())
}

// A file without a top: every sentence is refused for it, and every other line for its place.
#[test]
fn no_top(rt: HostRuntime) -> Result<(), Fail> {
    let out = answers(rt.alloc(), b"(lex 1 (A a))\n(say a)\n(top A)\n(say b)")?;
    assert!(rt; out.as_slice() == b"(refused 9 2)\n(refused 4 3)\n(refused 9 4)\n".as_slice());
    Ok(())
}

// Sentences that are parsed, by sums without a ladder, and by the single worst rule with one; and those that are not.
#[test]
fn sentences(rt: HostRuntime) -> Result<(), Fail> {
    let out = answers(
        rt.alloc(),
        b"(top S)\n(rule 1 (S N V))\n(lex 3 (N time))\n(lex 5 (V flies))\n(say time flies)\n(say flies time)\n(say fruit flies)\n(say)",
    )?;
    assert!(rt;
        out.as_slice()
            == b"(tree 9 0 3 (S (N time) (V flies)))\n(refused 19 6)\n(refused 13 7)\n(refused 16 8)\n".as_slice()
    );
    let out = answers(
        rt.alloc(),
        b"(scale worst)\n(ladder 4 9)\n(top S)\n(rule 1 (S N V))\n(lex 3 (N time))\n(lex 5 (V flies))\n(say time flies)\n",
    )?;
    assert!(rt; out.as_slice() == b"(tree 5 1 3 (S (N time) (V flies)))\n".as_slice());
    Ok(())
}
