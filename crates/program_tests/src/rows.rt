//! Rows of words and an input, beside how the program ends on them and what it writes.
//!
//! A row is a line `-> WORDS`, the input, a line `<- STATUS FAULT`, and the output. The words have a `|` between them, and where
//! all is well there is no fault. `== ` begins a remark, which goes on to the next row.
//!
//! An input or an output that begins with the line `image` is the image that was kept, with the changes that follow, a line each.
//! Such an output is kept as the image then, and so is any that is written where the row says `kept`. An input that begins with
//! `base` is such an image too, and is kept.
use crate::changes::{RowFault, changed};
use barrierfs_top::{Ended, OpenGate, Words, do_words};
use blk_base::{MemSink, PlainSource};
use std::alloc::Global;
use std::sync::Wait;
use std::thread::Threads;

/// A row, as it stands in its file.
#[derive(Clone, Copy)]
pub struct Row<'a> {
    words: &'a str,
    input: &'a str,
    end: &'a str,
    output: &'a str,
}

impl<'a> Row<'a> {
    /// The row of a text behind its `-> `, which may have a remark behind it.
    pub fn of(text: &'a str) -> Option<Row<'a>> {
        let (words, rest) = text.split_once('\n')?;
        let (input, rest) = rest.split_once("<- ")?;
        let (end, rest) = rest.split_once('\n')?;
        let output = rest.split_once("== ").map_or(rest, |(output, _)| output);
        Some(Row {
            words,
            input,
            end,
            output,
        })
    }

    fn given_words(&self, alloc: Global) -> Result<Words, RowFault> {
        let mut words = Words::make(alloc);
        if !self.words.is_empty() {
            for word in self.words.split('|') {
                words.push(alloc, word)?;
            }
        }
        Ok(words)
    }

    // The input, which is kept as the image if the row says so.
    fn given_input(&self, alloc: Global, image: &mut Vec<u8>) -> Result<Vec<u8>, RowFault> {
        let input = changed(alloc, image, self.input)?;
        if self.input.starts_with("base\n") {
            keep(image, &input)?;
        }
        Ok(input)
    }

    // How the program ends on an input, and what it writes.
    fn ended<H: Threads + Wait + Sync>(
        &self,
        rt: &H,
        alloc: Global,
        input: &[u8],
        sink: &mut MemSink,
    ) -> Result<Ended, RowFault> {
        let words = self.given_words(alloc)?;
        let mut source = PlainSource::new(input);
        Ok(do_words(rt, alloc, &words, &mut source, sink, &OpenGate))
    }

    // Whether it ends so and writes this. The image is that from before.
    fn wants(
        &self,
        alloc: Global,
        image: &[u8],
        end: &str,
        written: &[u8],
    ) -> Result<bool, RowFault> {
        if self.output == "kept\n" {
            return Ok(self.end == end);
        }
        let output = changed(alloc, image, self.output)?;
        Ok(self.end == end && output.as_slice() == written)
    }

    fn keeps(&self) -> bool {
        self.output.starts_with("image\n") || self.output == "kept\n"
    }

    /// Plays the row over an image, which is another then if the row says so. Answers how the program ends and what it writes
    /// where the row wants something else.
    pub fn play<H: Threads + Wait + Sync>(
        &self,
        rt: &H,
        alloc: Global,
        image: &mut Vec<u8>,
    ) -> Result<Option<String>, RowFault> {
        let input = self.given_input(alloc, image)?;
        let mut sink = MemSink::new(Vec::new(alloc), Vec::new(alloc));
        let ended = self.ended(rt, alloc, &input, &mut sink);
        drop(input);
        let end = ended.and_then(|ended| text_of(alloc, &ended));
        let told = end.and_then(|end| self.told(alloc, image, &end, sink.bytes()));
        drop(sink);
        told
    }

    // The image that is kept, and the text of an end and of what was written where the row wants something else.
    fn told(
        &self,
        alloc: Global,
        image: &mut Vec<u8>,
        end: &str,
        written: &[u8],
    ) -> Result<Option<String>, RowFault> {
        let wanted = self.wants(alloc, image, end, written)?;
        if self.keeps() {
            keep(image, written)?;
        }
        if wanted {
            return Ok(None);
        }
        let output = str::from_utf8(written).unwrap_or("bytes that are no text\n");
        let told = format!(in alloc; "{end}\n{output}")?;
        Ok(Some(told))
    }
}

fn keep(image: &mut Vec<u8>, bytes: &[u8]) -> Result<(), RowFault> {
    image.clear();
    Ok(image.extend_from_slice(bytes)?)
}

// The status, with the fault behind it where there is one.
fn text_of(alloc: Global, ended: &Ended) -> Result<String, RowFault> {
    let text = match ended.fault {
        Some(fault) => format!(in alloc; "{} {fault}", ended.status)?,
        None => format!(in alloc; "{}", ended.status)?,
    };
    Ok(text)
}
