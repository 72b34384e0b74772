//! The lines, by the words behind their first word.
ghost use Rattle.std.specs.Prelude.{◌≡◌, map};
ghost use Rattle.script_grammar.specs.Words.{header_line, put_line, body_line, plain_line, pick_line, events_line, line_of};

use crate::word_table::read_class;
use crate::words::{BodyWord, HeaderWord, Line, PickWord, PlainWord, Word};
use script_words::{count_of, hex_byte, numeral};

/// The line that these words spell, the first of which is `word`.
pub fn read_line_of(word: Word, words: &[&[u8]]) -> Option<Line>
    ensures { result ≡ line_of word (map (λ x. x.now) words.now) }
{
    match word {
        Word::First(_) | Word::OfVolume => None,
        Word::Header(word) => read_header_line(word, words),
        Word::Body(word) => read_body_line(word, words),
        Word::Events => read_events_line(words),
        Word::Plain(word) => read_plain_line(word, words),
        Word::Pick(word) => read_pick_line(word, words),
    }
}

fn read_header_line(word: HeaderWord, words: &[&[u8]]) -> Option<Line>
    ensures { result ≡ header_line word (map (λ x. x.now) words.now) }
{
    match (word, words) {
        (HeaderWord::Depth, [depth]) => Some(Line::Depth(numeral(depth)?)),
        (HeaderWord::Queue, [queue]) => Some(Line::Queue(numeral(queue)?)),
        (HeaderWord::Fail, [transfer]) => Some(Line::Fail(numeral(transfer)?)),
        (HeaderWord::Cut, [steps]) => Some(Line::Cut(numeral(steps)?)),
        (HeaderWord::Elevator, []) => Some(Line::Elevator),
        (HeaderWord::Flash, [segments]) => Some(Line::Flash(numeral(segments)?)),
        _ => None,
    }
}

fn read_body_line(word: BodyWord, words: &[&[u8]]) -> Option<Line>
    ensures { result ≡ body_line word (map (λ x. x.now) words.now) }
{
    match (word, words) {
        (BodyWord::Put, [block, value, class]) => read_put_line(block, value, class),
        (BodyWord::Flush, []) => Some(Line::Flush),
        _ => None,
    }
}

fn read_put_line(block: &[u8], value: &[u8], class: &[u8]) -> Option<Line>
    ensures { result ≡ put_line block.now value.now class.now }
{
    let block = numeral(block)?;
    let value = hex_byte(value)?;
    let class = read_class(class)?;
    Some(Line::Put {
        block,
        value,
        class,
    })
}

fn read_events_line(words: &[&[u8]]) -> Option<Line>
    ensures { result ≡ events_line (map (λ x. x.now) words.now) }
{
    match words {
        [] => Some(Line::Events),
        _ => None,
    }
}

fn read_plain_line(word: PlainWord, words: &[&[u8]]) -> Option<Line>
    ensures { result ≡ plain_line word (map (λ x. x.now) words.now) }
{
    let count = count_of(words)?;
    Some(Line::Plain { word, count })
}

fn read_pick_line(word: PickWord, words: &[&[u8]]) -> Option<Line>
    ensures { result ≡ pick_line word (map (λ x. x.now) words.now) }
{
    match words {
        [] => None,
        [pick, rest @ ..] => {
            let pick = numeral(pick)?;
            let count = count_of(rest)?;
            Some(Line::Pick { word, pick, count })
        }
    }
}
