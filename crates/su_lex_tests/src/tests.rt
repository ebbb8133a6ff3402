use std::alloc::Global;
use std::test::Fail;
use su_base::{List, NoMemory};
use su_lex::{LexEnd, Sign, Span, Token, TokenKind, cut, push_spaced, symbols, tokens};

/// The statements of a file, joined by a line feed.
fn statements(alloc: Global, file: &[u8]) -> Result<Vec<u8>, NoMemory> {
    let mut all = Vec::new(alloc);
    for span in cut(alloc, file)?.as_slice() {
        if span.start <= span.end && span.end <= file.len() {
            all.extend_from_slice(&file[span.start..span.end])?;
        }
        all.extend_from_slice(b"\n")?;
    }
    Ok(all)
}

#[test]
fn a_file_is_cut_at_each_semicolon_outside_texts_and_comments(rt: HostRuntime) -> Result<(), Fail> {
    let cases: [(&[u8], &[u8]); 14] = [
        (b"a; b", b"a\n b\n"),
        (b"a;b;", b"a\nb\n"),
        (b"", b""),
        (b";; \t\r\n;-- only this", b""),
        (b"a 'x;y' b;c", b"a 'x;y' b\nc\n"),
        (b"'it''s; so';b", b"'it''s; so'\nb\n"),
        (
            b"a -- no; cut 'here\n b; c",
            b"a -- no; cut 'here\n b\n c\n",
        ),
        (b"a; -- the end; of it", b"a\n"),
        (b"a; 'open; to the end", b"a\n 'open; to the end\n"),
        (b"a - b; -", b"a - b\n -\n"),
        (b"\xef\xbb\xbfa;b", b"a\nb\n"),
        (b"\xef\xbb\xbf\xef\xbb\xbfa", b"\xef\xbb\xbfa\n"),
        (b"\xef\xbba", b"\xef\xbba\n"),
        (b"a\x00;'-- '' ;';b", b"a\x00\n'-- '' ;'\nb\n"),
    ];
    for (file, want) in cases {
        assert_eq!(rt; statements(rt.alloc(), file)?.as_slice(), want);
    }
    Ok(())
}

fn spelled(sign: Sign) -> &'static [u8] {
    match sign {
        Sign::Open => b"(",
        Sign::Close => b")",
        Sign::Comma => b",",
        Sign::Dot => b".",
        Sign::Arrow => b"->",
        Sign::Equal => b"=",
        Sign::NotEqual => b"!=",
        Sign::Less => b"<",
        Sign::LessEqual => b"<=",
        Sign::Greater => b">",
        Sign::GreaterEqual => b">=",
    }
}

/// Each token behind a letter for its kind, and a space behind it.
fn shown(alloc: Global, text: &[u8], tokens: &List<Token>) -> Result<Vec<u8>, NoMemory> {
    let mut all = Vec::new(alloc);
    for token in tokens.as_slice() {
        let Span { start, end } = token.span;
        match &token.kind {
            TokenKind::Word => {
                all.extend_from_slice(b"w")?;
                if start <= end && end <= text.len() {
                    all.extend_from_slice(&text[start..end])?;
                }
            }
            TokenKind::Int(n) => {
                all.extend_from_slice(b"i")?;
                all.extend_from_slice(n.to_string(alloc)?.as_bytes())?;
            }
            TokenKind::Text(content) => {
                all.extend_from_slice(b"t")?;
                all.extend_from_slice(content.as_str().as_bytes())?;
            }
            TokenKind::Sign(sign) => {
                all.extend_from_slice(b"s")?;
                all.extend_from_slice(spelled(*sign))?;
            }
        }
        all.extend_from_slice(b" ")?;
    }
    Ok(all)
}

fn lexed(alloc: Global, text: &[u8]) -> Result<Vec<u8>, NoMemory> {
    match tokens(alloc, text) {
        Ok(tokens) => shown(alloc, text, &tokens),
        Err(LexEnd::Syntax) => {
            let mut refused = Vec::new(alloc);
            refused.extend_from_slice(b"syntax")?;
            Ok(refused)
        }
        Err(LexEnd::NoMemory) => Err(NoMemory),
    }
}

#[test]
fn the_longest_token_is_taken_from_the_left(rt: HostRuntime) -> Result<(), Fail> {
    let cases: [(&[u8], &[u8]); 28] = [
        (b"", b""),
        (b" \t\r\n-- a comment", b""),
        (b"a1_b _", b"wa1_b w_ "),
        (b"a-- 'x\n.b", b"wa s. wb "),
        (b"0 -0 007 5", b"i0 i0 i7 i5 "),
        (b"9223372036854775807", b"i9223372036854775807 "),
        (b"-9223372036854775808", b"i-9223372036854775808 "),
        (b"9223372036854775808", b"syntax"),
        (b"-9223372036854775809", b"syntax"),
        (b"5-3", b"i5 i-3 "),
        (b"5--3", b"i5 "),
        (b"- 5", b"syntax"),
        (b"5and", b"syntax"),
        (b"5_", b"syntax"),
        (b"''", b"t "),
        (b"'it''s'", b"tit's "),
        (b"'a''''b'", b"ta''b "),
        (b"A'x'5", b"wA tx i5 "),
        (b"'-- ; \n'", b"t-- ; \n "),
        (b"'open", b"syntax"),
        (b"'open''", b"syntax"),
        (b"'\xc3\xa9'", b"t\xc3\xa9 "),
        (b"'\xc3'", b"syntax"),
        (b"'a\x00'", b"ta\x00 "),
        (b"\xc3\xa9", b"syntax"),
        (b"a\x00", b"syntax"),
        (b"a ; b", b"syntax"),
        (
            b"(),.->= != < <= > >=<==",
            b"s( s) s, s. s-> s= s!= s< s<= s> s>= s<= s= ",
        ),
    ];
    for (text, want) in cases {
        assert_eq!(rt; lexed(rt.alloc(), text)?.as_slice(), want);
    }
    Ok(())
}

/// So many letters between two pieces.
fn letters(alloc: Global, before: &[u8], count: usize, behind: &[u8]) -> Result<Vec<u8>, NoMemory> {
    let mut all = Vec::new(alloc);
    all.extend_from_slice(before)?;
    for _ in 0..count {
        all.extend_from_slice(b"a")?;
    }
    all.extend_from_slice(behind)?;
    Ok(all)
}

#[test]
fn words_have_64_bytes_and_texts_4096_at_most(rt: HostRuntime) -> Result<(), Fail> {
    let cases: [(&[u8], usize, &[u8], bool); 6] = [
        (b" ", 64, b" ", true),
        (b" ", 65, b" ", false),
        (b"'", 4096, b"'", true),
        (b"'", 4097, b"'", false),
        (b"'''", 4095, b"'", true),
        (b"'''", 4096, b"'", false),
    ];
    for (before, count, behind, is_token) in cases {
        let text = letters(rt.alloc(), before, count, behind)?;
        assert_eq!(rt;
            tokens(rt.alloc(), text.as_slice()).is_ok(),
            is_token,
            "{count}"
        );
    }
    Ok(())
}

#[test]
fn spans_are_the_tokens_own_bytes(rt: HostRuntime) -> Result<(), Fail> {
    let found = tokens(rt.alloc(), b" ab <='c''d' -12")?;
    let want = [(1, 3), (4, 6), (6, 12), (13, 16)];
    assert_eq!(rt; found.len(), 4);
    for (token, (start, end)) in found.as_slice().iter().zip(want) {
        assert_eq!(rt; token.span, Span { start, end });
    }
    Ok(())
}

#[test]
fn symbols_are_written_with_one_space_between_two(rt: HostRuntime) -> Result<(), Fail> {
    let alloc = rt.alloc();
    let text = b"retrieve( t.A,B )where -- all\n t . A<='it''s' and(B=-007)";
    let mut out = Vec::new(alloc);
    push_spaced(alloc, &mut out, symbols(alloc, text)?.as_slice())?;
    let want = b"retrieve (t.A, B) where t.A <= 'it''s' and (B = -7)";
    assert_eq!(rt; out.as_slice(), want.as_slice());
    Ok(())
}
