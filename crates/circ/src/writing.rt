//! Writing lines piece by piece, without taking memory.

ghost use Rattle.std.specs.Prelude.{◌++◌, decimal};
ghost use Rattle.std.specs.List.{join_with_byte};
ghost use Rattle.terms.specs.Texts.{routed_words, reply_text};
ghost use Rattle.terms.specs.declared.reply.Reply.TheVariants.{CheckedIn};
ghost use Rattle.terms.specs.Writing.{Writes};

use itoa::Buffer;
use std::io::Write;
use terms::{Cents, Reply, Routed, WriteFault, write_bytes, write_pieces};

/// Writes the bytes and a number.
fn write_number<W: Write>(writer: &mut W, before: &[u8], number: u64) -> Result<(), WriteFault>
    ensures { Writes (before.now ++ decimal number)
        (W.contents writer.old) (W.contents writer.new) result }
{
    write_pieces(writer, &[before, Buffer::new().format(number).as_bytes()])
}

/// Writes where a copy goes.
#[tactic(auto, unfolding(terms::specs::Texts::routed_words))]
fn write_routed<W: Write>(writer: &mut W, routed: &Routed) -> Result<(), WriteFault>
    ensures { Writes (join_with_byte 32 (routed_words routed.now))
        (W.contents writer.old) (W.contents writer.new) result }
{
    match routed {
        Routed::Shelf { branch } => write_number(writer, b"shelf ", u64::from(branch.number())),
        Routed::HoldShelf {
            hold,
            branch,
            until,
        } => write_pieces(
            writer,
            &[
                b"ready ",
                Buffer::new().format(hold.number()).as_bytes(),
                b" at ",
                Buffer::new().format(branch.number()).as_bytes(),
                b" until ",
                &until.ascii(),
            ],
        ),
        Routed::Transit {
            goal,
            hold: Some(hold),
        } => write_pieces(
            writer,
            &[
                b"transit ",
                Buffer::new().format(goal.number()).as_bytes(),
                b" for ",
                Buffer::new().format(hold.number()).as_bytes(),
            ],
        ),
        Routed::Transit { goal, hold: None } => {
            write_number(writer, b"transit ", u64::from(goal.number()))
        }
    }
}

/// Writes the fine for a copy that came in, and where it goes.
fn write_checked_in<W: Write>(
    writer: &mut W,
    fine: Cents,
    routed: &Routed,
) -> Result<(), WriteFault>
    ensures { Writes (reply_text (CheckedIn fine routed.now))
        (W.contents writer.old) (W.contents writer.new) result }
{
    write_pieces(
        writer,
        &[
            b"fine ",
            Buffer::new().format(fine.number()).as_bytes(),
            b" ",
        ],
    )?;
    write_routed(writer, routed)
}

/// Writes the text of a reply.
#[tactic(auto, unfolding(terms::specs::Texts::reply_text, terms::specs::Texts::reply_words))]
pub(crate) fn write_reply<W: Write>(writer: &mut W, reply: &Reply) -> Result<(), WriteFault>
    ensures { Writes (reply_text reply.now) (W.contents writer.old) (W.contents writer.new) result }
{
    match reply {
        Reply::Done => write_bytes(writer, b"ok"),
        Reply::Lent { loan, due } => write_pieces(
            writer,
            &[
                b"loan ",
                Buffer::new().format(loan.number()).as_bytes(),
                b" due ",
                &due.ascii(),
            ],
        ),
        Reply::CheckedIn { fine, routed } => write_checked_in(writer, *fine, routed),
        Reply::Held { hold } => write_number(writer, b"hold ", u64::from(hold.number())),
        Reply::Moved { routed } => write_routed(writer, routed),
        Reply::Lost { fine, price } => write_pieces(
            writer,
            &[
                b"fine ",
                Buffer::new().format(fine.number()).as_bytes(),
                b" price ",
                Buffer::new().format(price.number()).as_bytes(),
            ],
        ),
        Reply::Owed { owed } => write_number(writer, b"owed ", owed.number()),
        Reply::Shown { page } => write_bytes(writer, page.as_str().as_bytes()),
        Reply::Refused(refusal) => {
            write_number(writer, b"refused ", u64::from(refusal.number()))
        }
    }
}
