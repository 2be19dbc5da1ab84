//! A tally of lines: how often each event word occurred, and which line came last.
ghost use Rattle.std.specs.Prelude.{◌≡◌, ◌≤◌, ◌++◌, List, [], length, map, IfOk, OnOk};
ghost use Rattle.trace_text.specs.Queue.{TraceLine};
ghost use Rattle.trace_text.specs.Text.{ArePrintable, text_of};
ghost use Rattle.trace_text.specs.Summary.{summary_of};
ghost use Rattle.trace_text.specs.Words.{word_text};
ghost use Rattle.trace_text.specs.declared.words.Word.{Word};
ghost use Rattle.load_runs.specs.Tallies.{Tallies, counted, count_text, none_of};

use ann_base::NoMemory;
use itoa::Buffer;
use std::alloc::Global;
use trace_reading::read_line;
use trace_text::{EVENT_WORDS, Word, event_word, word_bytes};

/// How often an event word occurred.
#[derive(Clone, Copy)]
pub struct Count {
    pub word: Word,
    pub count: u64,
}

/// What is kept of lines: how often each event word occurred, in the order of a summary, and the
/// text of the last line.
#[derive(Drop)]
pub struct Tally {
    counts: Vec<Count>,
    last: Vec<u8>,
}

impl Tally {
    /// Of no line.
    pub fn new(alloc: Global) -> Result<Tally, NoMemory>
        ensures { IfOk result (λ tally. Tallies tally []) }
    {
        Ok(Tally {
            counts: none_counted(alloc, &EVENT_WORDS)?,
            last: Vec::new(alloc),
        })
    }

    /// Counts the line whose text this is, where it is not empty.
    ///
    /// Errors: memory ran out for its text, or a count is no number of 64 bits any more.
    pub fn piece(&mut self, piece: &[u8]) -> Result<(), NoMemory>
        ensures { OnOk result
            ((before lines : List TraceLine) → Tallies self.old before → length lines ≤ 1
            → ArePrintable lines → piece.now ≡ text_of lines → Tallies self.new (before ++ lines)) }
    {
        if piece.is_empty() {
            return Ok(());
        }
        match read_line(piece) {
            Ok(read) => self.line(event_word(&read.1), piece),
            Err(_) => Ok(()),
        }
    }

    /// Counts a line of this event word and with this text.
    fn line(&mut self, word: Word, text: &[u8]) -> Result<(), NoMemory>
        ensures counts { OnOk result
            (self.new.counts.items ≡ map (counted word) self.old.counts.items) }
        ensures last { OnOk result (self.new.last.items ≡ text.now) }
    {
        count_word(&mut self.counts, word)?;
        self.last.clear();
        self.last.extend_from_slice(text)?;
        Ok(())
    }

    /// The summary of the lines that are counted.
    pub fn text(&self, alloc: Global) -> Result<Vec<u8>, NoMemory>
        ensures { IfOk result (λ text. (lines : List TraceLine) → Tallies self.now lines
            → text.items ≡ summary_of lines) }
    {
        let mut text = Vec::new(alloc);
        for count in self.counts.iter() {
            write_count(&mut text, *count)?;
        }
        text.extend_from_slice(&self.last)?;
        Ok(text)
    }
}

impl Count {
    /// With a line more of the word with this text.
    fn counted(self, text: &[u8]) -> Result<Count, NoMemory>
        ensures { IfOk result (λ count. (word : Word) → text.now ≡ word_text word
            → count ≡ counted word self) }
    {
        if text == word_bytes(self.word) {
            let count = self.count.checked_add(1).ok_or(NoMemory)?;
            Ok(Count {
                word: self.word,
                count,
            })
        } else {
            Ok(self)
        }
    }
}

/// These words, none of which has occurred.
fn none_counted(alloc: Global, words: &[Word]) -> Result<Vec<Count>, NoMemory>
    ensures { IfOk result (λ counts. counts.items ≡ map none_of words.now) }
{
    let mut counts = Vec::with_capacity(alloc, words.len())?;
    for word in words {
        counts.push(Count {
            word: *word,
            count: 0,
        })?;
    }
    Ok(counts)
}

/// Counts a line of this event word.
fn count_word(counts: &mut [Count], word: Word) -> Result<(), NoMemory>
    ensures { OnOk result (counts.new ≡ map (counted word) counts.old) }
{
    let text = word_bytes(word);
    for count in counts.iter_mut() {
        *count = count.counted(text)?;
    }
    Ok(())
}

/// Appends a word and its count, where it occurred.
fn write_count(text: &mut Vec<u8>, count: Count) -> Result<(), NoMemory>
    ensures { OnOk result (text.new.items ≡ text.old.items ++ count_text count) }
{
    if count.count == 0 {
        return Ok(());
    }
    let mut digits = Buffer::new();
    text.extend_from_slice(word_bytes(count.word))?;
    text.extend_from_slice(b" ")?;
    text.extend_from_slice(digits.format(count.count).as_bytes())?;
    text.extend_from_slice(b"\n")?;
    Ok(())
}
