//! Reserved words (IEEE 1364-2005, annex B). The table is cut by first letters, so each identifier is compared with at
//! most thirteen words; it needs no hash, and the contract is a walk through a list.

ghost use Rattle.std.specs.Prelude.{◌≡◌, map};
ghost use Rattle.bb_lex.specs.Words.{entry_of, keyword_of};
ghost use Rattle.bb_lex.specs.Inside.Words.{entries, words_by};

use crate::keyword::Keyword;

type Entry = (&'static [u8], Keyword);

static WORDS_A: [Entry; 4] = [
    (b"always", Keyword::Always),
    (b"and", Keyword::And),
    (b"assign", Keyword::Assign),
    (b"automatic", Keyword::Other),
];

static WORDS_B: [Entry; 4] = [
    (b"begin", Keyword::Other),
    (b"buf", Keyword::Buf),
    (b"bufif0", Keyword::Other),
    (b"bufif1", Keyword::Other),
];

static WORDS_C: [Entry; 6] = [
    (b"case", Keyword::Other),
    (b"casex", Keyword::Other),
    (b"casez", Keyword::Other),
    (b"cell", Keyword::Other),
    (b"cmos", Keyword::Other),
    (b"config", Keyword::Other),
];

static WORDS_D: [Entry; 5] = [
    (b"deassign", Keyword::Other),
    (b"default", Keyword::Other),
    (b"defparam", Keyword::Other),
    (b"design", Keyword::Other),
    (b"disable", Keyword::Other),
];

static WORDS_E: [Entry; 13] = [
    (b"edge", Keyword::Other),
    (b"else", Keyword::Other),
    (b"end", Keyword::Other),
    (b"endcase", Keyword::Other),
    (b"endconfig", Keyword::Other),
    (b"endfunction", Keyword::Other),
    (b"endgenerate", Keyword::Other),
    (b"endmodule", Keyword::Endmodule),
    (b"endprimitive", Keyword::Other),
    (b"endspecify", Keyword::Other),
    (b"endtable", Keyword::Other),
    (b"endtask", Keyword::Other),
    (b"event", Keyword::Other),
];

static WORDS_F: [Entry; 5] = [
    (b"for", Keyword::Other),
    (b"force", Keyword::Other),
    (b"forever", Keyword::Other),
    (b"fork", Keyword::Other),
    (b"function", Keyword::Other),
];

static WORDS_G: [Entry; 2] = [(b"generate", Keyword::Other), (b"genvar", Keyword::Other)];

static WORDS_H: [Entry; 2] = [(b"highz0", Keyword::Other), (b"highz1", Keyword::Other)];

static WORDS_I: [Entry; 9] = [
    (b"if", Keyword::Other),
    (b"ifnone", Keyword::Other),
    (b"incdir", Keyword::Other),
    (b"include", Keyword::Other),
    (b"initial", Keyword::Other),
    (b"inout", Keyword::Other),
    (b"input", Keyword::Input),
    (b"instance", Keyword::Other),
    (b"integer", Keyword::Other),
];

static WORDS_J: [Entry; 1] = [(b"join", Keyword::Other)];

static WORDS_L: [Entry; 4] = [
    (b"large", Keyword::Other),
    (b"liblist", Keyword::Other),
    (b"library", Keyword::Other),
    (b"localparam", Keyword::Other),
];

static WORDS_M: [Entry; 3] = [
    (b"macromodule", Keyword::Other),
    (b"medium", Keyword::Other),
    (b"module", Keyword::Module),
];

static WORDS_N: [Entry; 8] = [
    (b"nand", Keyword::Nand),
    (b"negedge", Keyword::Negedge),
    (b"nmos", Keyword::Other),
    (b"nor", Keyword::Nor),
    (b"noshowcancelled", Keyword::Other),
    (b"not", Keyword::Not),
    (b"notif0", Keyword::Other),
    (b"notif1", Keyword::Other),
];

static WORDS_O: [Entry; 2] = [(b"or", Keyword::Or), (b"output", Keyword::Output)];

static WORDS_P: [Entry; 10] = [
    (b"parameter", Keyword::Other),
    (b"pmos", Keyword::Other),
    (b"posedge", Keyword::Posedge),
    (b"primitive", Keyword::Other),
    (b"pull0", Keyword::Other),
    (b"pull1", Keyword::Other),
    (b"pulldown", Keyword::Other),
    (b"pullup", Keyword::Other),
    (b"pulsestyle_ondetect", Keyword::Other),
    (b"pulsestyle_onevent", Keyword::Other),
];

static WORDS_R: [Entry; 11] = [
    (b"rcmos", Keyword::Other),
    (b"real", Keyword::Other),
    (b"realtime", Keyword::Other),
    (b"reg", Keyword::Reg),
    (b"release", Keyword::Other),
    (b"repeat", Keyword::Other),
    (b"rnmos", Keyword::Other),
    (b"rpmos", Keyword::Other),
    (b"rtran", Keyword::Other),
    (b"rtranif0", Keyword::Other),
    (b"rtranif1", Keyword::Other),
];

static WORDS_S: [Entry; 10] = [
    (b"scalared", Keyword::Other),
    (b"showcancelled", Keyword::Other),
    (b"signed", Keyword::Other),
    (b"small", Keyword::Other),
    (b"specify", Keyword::Other),
    (b"specparam", Keyword::Other),
    (b"strong0", Keyword::Other),
    (b"strong1", Keyword::Other),
    (b"supply0", Keyword::Supply0),
    (b"supply1", Keyword::Supply1),
];

static WORDS_T: [Entry; 12] = [
    (b"table", Keyword::Other),
    (b"task", Keyword::Other),
    (b"time", Keyword::Other),
    (b"tran", Keyword::Other),
    (b"tranif0", Keyword::Other),
    (b"tranif1", Keyword::Other),
    (b"tri", Keyword::Other),
    (b"tri0", Keyword::Other),
    (b"tri1", Keyword::Other),
    (b"triand", Keyword::Other),
    (b"trior", Keyword::Other),
    (b"trireg", Keyword::Other),
];

static WORDS_U: [Entry; 3] = [
    (b"unsigned", Keyword::Other),
    (b"use", Keyword::Other),
    (b"uwire", Keyword::Other),
];

static WORDS_V: [Entry; 1] = [(b"vectored", Keyword::Other)];

static WORDS_W: [Entry; 7] = [
    (b"wait", Keyword::Other),
    (b"wand", Keyword::Other),
    (b"weak0", Keyword::Other),
    (b"weak1", Keyword::Other),
    (b"while", Keyword::Other),
    (b"wire", Keyword::Wire),
    (b"wor", Keyword::Other),
];

static WORDS_X: [Entry; 2] = [(b"xnor", Keyword::Xnor), (b"xor", Keyword::Xor)];

#[tactic(auto, unfolding(crate::specs::Inside::Words::words_by))]
fn words_by(first: u8) -> &'static [Entry]
    ensures { entries result.now ≡ words_by first }
{
    match first {
        b'a' => &WORDS_A,
        b'b' => &WORDS_B,
        b'c' => &WORDS_C,
        b'd' => &WORDS_D,
        b'e' => &WORDS_E,
        b'f' => &WORDS_F,
        b'g' => &WORDS_G,
        b'h' => &WORDS_H,
        b'i' => &WORDS_I,
        b'j' => &WORDS_J,
        b'l' => &WORDS_L,
        b'm' => &WORDS_M,
        b'n' => &WORDS_N,
        b'o' => &WORDS_O,
        b'p' => &WORDS_P,
        b'r' => &WORDS_R,
        b's' => &WORDS_S,
        b't' => &WORDS_T,
        b'u' => &WORDS_U,
        b'v' => &WORDS_V,
        b'w' => &WORDS_W,
        b'x' => &WORDS_X,
        _ => &[],
    }
}

fn keyword_in(table: &[Entry], word: &[u8]) -> Option<Keyword>
    ensures { result ≡ entry_of (entries table.now) word.now }
{
    for entry in table {
        if entry.0 == word {
            return Some(entry.1);
        }
    }
    None
}

#[tactic(auto, using(crate::proofs::WordTable::keyword_steps))]
pub fn keyword_of(word: &[u8]) -> Option<Keyword>
    ensures { result ≡ keyword_of word.now }
{
    let [first, ..] = word else {
        return None;
    };
    keyword_in(words_by(*first), word)
}
