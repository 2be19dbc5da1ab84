//! Put_Line (ISO/IEC 8652:2012, A.10.7).
ghost use Rattle.std.specs.Prelude.{◌≡◌, ◌++◌, OnOk};
ghost use Rattle.ann_base.specs.Answers.{Answers, AnswersAs};
ghost use Rattle.profile_machine.specs.Statements.{put_line, piece_text, text_of_pieces};
ghost use Rattle.machine_frames.specs.Did.{Did};
ghost use Rattle.machine_statements.specs.Texts.{text_behind};

use ann_base::{NoMemory, OrMemory, Raised};
use machine_frames::{Effect, goes, refused, says};
use machine_operators::{text_of_literal, text_of_truth, text_of_whole};
use machine_program::{Program, literals_of, next_of};
use machine_values::{Seen, seen_by, value};
use profile_image::{Piece, StatementNo};
use profile_machine::world::{Line, Part};
use std::alloc::Global;
use trace_text::Who;
use world_tables::List;

fn push_all(text: &mut List<u8>, more: &[u8]) -> Result<(), NoMemory>
    ensures { OnOk result (text.new ≡ text.old ++ more.now) }
{
    for byte in more {
        text.push_back(*byte)?;
    }
    Ok(())
}

// The text of a piece stands behind what is there.
fn push_piece(
    alloc: Global,
    q: &Seen<'_>,
    piece: &Piece,
    text: &mut List<u8>,
) -> Result<(), OrMemory<Raised>>
    ensures { AnswersAs (λ _. text.new) result (text_behind text.old (piece_text q.now piece.now)) }
{
    match piece {
        Piece::Text(more) => push_all(text, more.as_slice())?,
        Piece::Whole(e) => push_all(text, text_of_whole(alloc, value(q, *e)?)?.as_slice())?,
        Piece::Truth(e) => push_all(text, text_of_truth(value(q, *e)?))?,
        Piece::Literal {
            value: e,
            enumeration,
        } => {
            let literals = literals_of(q.program, *enumeration);
            push_all(text, text_of_literal(literals, value(q, *e)?))?
        }
    }
    Ok(())
}

#[tactic(auto, using(crate::proofs::TextLemmas::text_laws))]
fn text_of_pieces(
    alloc: Global,
    q: &Seen<'_>,
    pieces: &[Piece],
) -> Result<List<u8>, OrMemory<Raised>>
    ensures { Answers result (text_of_pieces q.now pieces.now) }
{
    let mut text = List::new(alloc);
    for piece in pieces {
        push_piece(alloc, q, piece, &mut text)?;
    }
    Ok(text)
}

/// Put_Line of the text that its pieces give.
#[tactic(auto, unfolding(profile_machine::specs::Statements::put_line))]
pub fn put_line(
    alloc: Global,
    p: &Program,
    effect: &mut Effect,
    name: Who,
    s: StatementNo,
    pieces: &[Piece],
) -> Result<(), NoMemory>
    ensures { OnOk result (Did (put_line p.now name s pieces.now) effect.old effect.new) }
{
    match text_of_pieces(alloc, &seen_by(p, &effect.world, name), pieces) {
        Ok(text) => {
            goes(effect, name, next_of(p, s));
            says(effect, Part::Own, Line::Put { who: name, text })
        }
        Err(answer) => refused(effect, name, answer),
    }
}
