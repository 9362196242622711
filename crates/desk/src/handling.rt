//! One request: who sends it, whether its key was used, and the result of its command.

ghost use Rattle.std.specs.Prelude.{◌≡◌, [], true, false, Ok, bytes_eq};
ghost use Rattle.terms.specs.Callers.{owner_of};
ghost use Rattle.terms.specs.Forms.{IsKey};
ghost use Rattle.terms.specs.Laws.{IsCommand, IsKept};
ghost use Rattle.terms.specs.Limits.{IsOwner};
ghost use Rattle.terms.specs.Texts.{request_text as request_text_of, reply_text as reply_text_of};
ghost use Rattle.terms.specs.declared.reply.Reply.{Reply as ReplyOf};
ghost use Rattle.store.specs.Commit.{command_made};
ghost use Rattle.store.specs.Library.{state};
ghost use Rattle.store.specs.Reads.{IsUsed};
ghost use Rattle.model.specs.Requests.{may_send as may_send_command, only_asks};
ghost use Rattle.desk.specs.Answering.{Handled, repeated, Records, AnswersCommand, AnswersByKey};
ghost use Rattle.desk.specs.Answering.{ChangesNothing, HandlesAny, IsViewFor, NamesIf, NamesTouched, TouchesOnly};

use crate::asking::reply_to_question;
use crate::callers::{is_known, may_send, refusal_for_another};
use crate::patron_page::show;
use crate::readers::readers_of;
use crate::touching::{Touched, touched_by};
use circ_core::{Changes, View, decide};
use sqlite::Alter;
use std::alloc::Global;
use store::{KeptReply, Store};
use terms::laws::command_has_forms;
use terms::{
    Command, Fault, KeptPut, Key, Owner, Refusal, Reply, Request, Text, read_reply, reply_text,
    request_text,
};

/// Commits the changes, and keeps the request with its reply.
fn record<'k, S: Alter>(
    store: &mut Store<S>,
    changes: &Changes<'_>,
    caller: Owner,
    key: &'k Key,
    text: &'k Text,
    reply: &'k Text,
) -> Result<(), Fault>
    ensures { Records caller (command_made changes.now
        (record { caller = caller; key = key.now; text = text.now; reply = reply.now }))
        S.Store store.old store.new result }
{
    let kept = KeptPut {
        caller,
        key,
        text,
        reply,
    };
    store.commit(changes, &kept)
}

/// Replies to a command from the rows it needs, and changes the rows if it is accepted. Makes the
/// reply's text and the list of touched patrons before writing anything.
fn carry_out<'a, S: Alter>(
    store: &mut Store<S>,
    alloc: Global,
    view: &'a View,
    owner: Owner,
    key: &Key,
    text: &Text,
    command: &'a Command,
    readers: Touched,
    touched: &mut Touched,
) -> Result<Reply, Fault>
    requires command { (only_asks command.now ≡ false) × (text.now ≡ request_text_of command.now) }
    requires blank { touched.old ≡ [] }
    ensures answered { AnswersCommand owner key.now command.now
        (IsViewFor owner command.now view.now readers) touched.new
        S.Store store.old store.new result }
    ensures named { NamesIf (IsViewFor owner command.now view.now readers) command.now touched.new
        S.Store store.old store.new result }
    ensures any { HandlesAny S.Store store.old store.new result }
{
    match decide(view, command) {
        Err(refusal) => Ok(Reply::Refused(refusal)),
        Ok(decision) => {
            let reply = reply_text(alloc, &decision.reply)?;
            let patrons = touched_by(&decision.changes, readers)?;
            record(store, &decision.changes, owner, key, text, &reply)?;
            *touched = patrons;
            Ok(decision.reply)
        }
    }
}

/// Replies to a changing command with a new key.
fn answer<S: Alter>(
    store: &mut Store<S>,
    alloc: Global,
    owner: Owner,
    key: &Key,
    text: &Text,
    command: &Command,
    touched: &mut Touched,
) -> Result<Reply, Fault>
    requires command { (only_asks command.now ≡ false) × (text.now ≡ request_text_of command.now) }
    requires blank { touched.old ≡ [] }
    ensures answered { AnswersCommand owner key.now command.now
        (λ _. may_send_command owner command.now ≡ true) touched.new
        S.Store store.old store.new result }
    ensures named { NamesIf (λ _. may_send_command owner command.now ≡ true) command.now touched.new
        S.Store store.old store.new result }
    ensures any { HandlesAny S.Store store.old store.new result }
{
    if let Some(refusal) = refusal_for_another(store, &owner, command)? {
        return Ok(Reply::Refused(refusal));
    }
    let view = store.view_for(alloc, command)?;
    let readers = readers_of(store, alloc, command)?;
    carry_out(
        store, alloc, &view, owner, key, text, command, readers, touched,
    )
}

/// Returns the kept reply for the same text, refusal 80 for another. 93 if what is kept is no
/// reply.
fn repeat(kept: &KeptReply, text: &Text) -> Result<Reply, Fault>
    ensures { (reply : ReplyOf) → IsKept reply → kept.now.reply ≡ reply_text_of reply
        → result ≡ Ok (repeated (bytes_eq kept.now.text text.now) reply) }
{
    if !kept.text.is_same(text) {
        return Ok(Reply::Refused(Refusal::KeyUsed));
    }
    match read_reply(kept.reply.as_str()) {
        Some(reply) => Ok(reply),
        None => Err(Fault::Stored),
    }
}

/// Replies to a request whose caller may send it: for a used key the kept reply or 80, else the
/// result of the command.
fn respond<S: Alter>(
    store: &mut Store<S>,
    alloc: Global,
    request: &Request,
    touched: &mut Touched,
) -> Result<Reply, Fault>
    requires command { only_asks request.now.command ≡ false }
    requires blank { touched.old ≡ [] }
    ensures answered { AnswersByKey request.now touched.new S.Store store.old store.new result }
    ensures named { NamesIf (λ _. IsOwner (owner_of request.now.caller)
        × (may_send_command (owner_of request.now.caller) request.now.command ≡ true))
        request.now.command touched.new S.Store store.old store.new result }
    ensures any { HandlesAny S.Store store.old store.new result }
    ensures repeats { IsUsed (owner_of request.now.caller) request.now.key (state S.Store store.old).now
        → ChangesNothing (state S.Store store.old) (state S.Store store.new) result }
{
    let text = request_text(alloc, &request.command)?;
    match store.kept(request.caller.owner(), &request.key)? {
        Some(kept) => repeat(&kept, &text),
        None => answer(
            store,
            alloc,
            request.caller.owner(),
            &request.key,
            &text,
            &request.command,
            touched,
        ),
    }
}

/// The command and key of a request are well-formed.
fn has_forms(request: &Request)
    ensures { IsCommand request.now.command × IsKey request.now.key }
{
    command_has_forms(&request.command);
    let _key = request.key.as_str();
}

/// Replies to a request: 81 for a caller who may not send it; the page or the answer to a question,
/// ignoring the key; for a used key the kept reply or 80; else the result of the command. If that
/// is accepted, sets `touched` to the patrons whose pages it may have changed.
pub(crate) fn handle_touching<S: Alter>(
    store: &mut Store<S>,
    alloc: Global,
    request: &Request,
    touched: &mut Touched,
) -> Result<Reply, Fault>
    requires blank { touched.old ≡ [] }
    ensures formed { IsCommand request.now.command × IsKey request.now.key }
    ensures handled { Handled request.now S.Store store.old store.new result }
    ensures touches { TouchesOnly request.now touched.new S.Store store.old store.new result }
    ensures named { NamesTouched request.now.command touched.new
        S.Store store.old store.new result }
{
    has_forms(request);
    if !is_known(store, alloc, &request.caller)?
        || !may_send(request.caller.owner(), &request.command)
    {
        return Ok(Reply::Refused(Refusal::NotAllowed));
    }
    if let Command::Page { patron } = &request.command {
        return show(store, alloc, *patron);
    }
    if let Command::Ask(question) = &request.command {
        return reply_to_question(store, alloc, question);
    }
    respond(store, alloc, request, touched)
}

/// Replies to a request, without the patrons it touched.
pub(crate) fn handle<S: Alter>(
    store: &mut Store<S>,
    alloc: Global,
    request: &Request,
) -> Result<Reply, Fault>
    ensures formed { IsCommand request.now.command × IsKey request.now.key }
    ensures handled { Handled request.now S.Store store.old store.new result }
{
    let mut touched = Touched::none(alloc);
    handle_touching(store, alloc, request, &mut touched)
}
