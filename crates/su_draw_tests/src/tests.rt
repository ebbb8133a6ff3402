use std::alloc::Global;
use std::str;
use std::test::Fail;
use su_base::NoMemory;
use su_draw::{kept_picture_of, picture_of};

const FOLDED: &str =
    "query: retrieve (A) where B = 'x < \"y\" & é'\nvariables -\nterm 0 disjunct 0 choice 0\n  row 0 - AB A=A B='x < \"y\" & é'\n  row 1 - AC A=A C=C\n  head A\n  kept 0\n  fold 0 0\n  sources 0 AB\nterms 1 kept 1\n";

#[test]
fn an_explanation_is_drawn_with_its_words_escaped_and_cut(rt: HostRuntime) -> Result<(), Fail> {
    let Ok(picture) = picture_of(rt.alloc(), FOLDED.as_bytes()) else {
        return Err(Fail::from(NoMemory));
    };
    let svg = str::from_utf8(picture.as_slice())?;
    assert!(rt; svg.starts_with("<svg "));
    assert!(rt;
        svg.find(
            "<title>&#39;x &#60; &#34;y&#34; &#38; &#233;&#39;</title>&#39;x &#60; &#34;y&#34; &#38; &#8230;</text>"
        ).is_some()
    );
    // the arrow of row 1, which stands at 150, goes to row 0 at 130, each 4 above the base line
    assert!(rt; svg.find(" 146H").is_some());
    assert!(rt; svg.find("V126H").is_some());
    Ok(())
}

/// Three objects in a cycle, and one that hangs on it.
const CYCLE: &str =
    "attribute A int;\nattribute B int;\nattribute C int;\nattribute D int;\nrelation R (A int, B int);\nobject AB (A, B) from R (A, B);\nobject BC (B, C) from R (A, B);\nobject CA (C, A) from R (A, B);\nobject CD (C, D) from R (A, B);\n";

/// The same without the third object.
const CHAIN: &str =
    "attribute A int;\nattribute B int;\nattribute C int;\nattribute D int;\nrelation R (A int, B int);\nobject AB (A, B) from R (A, B);\nobject BC (B, C) from R (A, B);\nobject CD (C, D) from R (A, B);\n";

/// Texts, whether their kept rows alone are drawn, what the pictures hold, and what they don't.
const PICTURES: &[(&str, bool, &[&str], &[&str])] = &[
    (
        FOLDED,
        false,
        &[
            "<path",
            ">bold on a ground: ",
            ">pale: ",
            ">arrow: ",
            ">small number: ",
            ">read from: ",
        ],
        &[">dot: ", ">ring: ", ">arrow at the left: "],
    ),
    (
        FOLDED,
        true,
        &[">AB</text>", ">bold on a ground: ", ">read from: "],
        &[
            "<path",
            ">AC</text>",
            ">pale: ",
            ">arrow: ",
            ">small number: ",
        ],
    ),
    (
        CYCLE,
        false,
        &[
            "class=\"ring\"",
            "r=\"6\" class=\"c0\"",
            ">dot: ",
            ">ring: ",
        ],
        &[">square: ", ">pale: "],
    ),
    (
        CHAIN,
        false,
        &["r=\"6\" class=\"c0\"", ">dot: "],
        &["class=\"ring\"", ">ring: "],
    ),
];

/// Whether the picture holds all of these texts, and none of those.
fn holds(svg: &[u8], all: &[&str], none: &[&str]) -> bool {
    let Ok(svg) = str::from_utf8(svg) else {
        return false;
    };
    all.iter().all(|text| svg.find(*text).is_some())
        && none.iter().all(|text| svg.find(*text).is_none())
}

/// Whether the picture of a text is as it should be.
fn is_drawn(alloc: Global, text: &str, kept: bool, all: &[&str], none: &[&str]) -> bool {
    let drawn = if kept {
        kept_picture_of(alloc, text.as_bytes())
    } else {
        picture_of(alloc, text.as_bytes())
    };
    match drawn {
        Ok(svg) => holds(svg.as_slice(), all, none),
        Err(_) => false,
    }
}

#[test]
fn the_legend_explains_what_is_drawn(rt: HostRuntime) -> Result<(), Fail> {
    let mut wrong: usize = PICTURES.len();
    for (i, (text, kept, all, none)) in PICTURES.iter().enumerate() {
        if !is_drawn(rt.alloc(), text, *kept, all, none) && wrong == PICTURES.len() {
            wrong = i;
        }
    }
    assert_eq!(rt; wrong, PICTURES.len());
    Ok(())
}
