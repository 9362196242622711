//! Comparing requests, worker numbers, and boards from opening to end.

ghost use Rattle.std.specs.Prelude.{◌≡◌, ◌+◌, ◌++◌, [], ◌∷◌, IfOk, IfSome};
ghost use Rattle.board.specs.Showing.{LeavesOpen, count_own};

use board::{Blank, Entry, First, Naming, Publisher, ReadError, SharedRequest, Window, WorkerId};
use desk::OwnPage;
use std::alloc::Global;
use std::marker::Brand;
use std::sync::Wait;
use std::test::Fail;
use terms::{
    BranchId, Caller, CardKey, Command, HoldId, Key, LoanId, Owner, PatronId, Reply, Request, Text,
    TitleId, request_text,
};

// ---- requests

/// A shareable request of a caller, with a key.
fn shared(
    alloc: Global,
    caller: Caller,
    key: &str,
    command: Command,
) -> Result<SharedRequest, Fail> {
    let key = Key::new(alloc, key)?.ok_or("a key")?;
    let request = Request {
        caller,
        key,
        command,
    };
    Ok(SharedRequest::new(alloc, request)?)
}

/// A patron who shows a card key.
fn patron(alloc: Global, number: u32, card_key: &str) -> Result<Caller, Fail> {
    let card_key = CardKey::new(alloc, card_key)?.ok_or("a card key")?;
    Ok(Caller::Patron(PatronId::new(number), card_key))
}

/// Renews a loan.
fn renewal(loan: u32) -> Command {
    Command::Renew {
        loan: LoanId::new(loan),
    }
}

/// The request that the others are compared with: patron 1 renews loan 5.
fn own(alloc: Global) -> Result<SharedRequest, Fail> {
    let caller = patron(alloc, 1, "cardkey00001")?;
    shared(alloc, caller, "k1", renewal(5))
}

/// Whether each of two requests equals the other.
fn are_same(one: &SharedRequest, other: &SharedRequest) -> bool {
    one.is_same(other) && other.is_same(one)
}

/// Whether neither of two requests equals the other.
fn are_apart(one: &SharedRequest, other: &SharedRequest) -> bool {
    !one.is_same(other) && !other.is_same(one)
}

#[test]
fn requests_of_the_same_parts_are_the_same(rt: HostRuntime) -> Result<(), Fail> {
    let alloc = rt.alloc();
    let one = own(alloc)?;
    assert!(rt; are_same(&one, &own(alloc)?));
    let copied = one.try_clone()?;
    assert!(rt; are_same(&one, &copied));
    let desk = shared(alloc, Caller::Desk, "k1", renewal(5))?;
    assert!(rt; are_same(&desk, &shared(alloc, Caller::Desk, "k1", renewal(5))?));
    Ok(())
}

#[test]
fn requests_with_another_caller_key_or_loan_are_others(rt: HostRuntime) -> Result<(), Fail> {
    let alloc = rt.alloc();
    let one = own(alloc)?;
    for (number, card_key, key, loan) in [
        (2, "cardkey00001", "k1", 5),
        (1, "cardkey00002", "k1", 5),
        (1, "cardkey00001", "k2", 5),
        (1, "cardkey00001", "k1", 6),
    ] {
        let caller = patron(alloc, number, card_key)?;
        let other = shared(alloc, caller, key, renewal(loan))?;
        assert!(rt; are_apart(&one, &other), "{number} {card_key} {key} {loan}");
    }
    Ok(())
}

#[test]
fn a_request_of_the_desk_or_with_another_command_is_another(rt: HostRuntime) -> Result<(), Fail> {
    let alloc = rt.alloc();
    let one = own(alloc)?;
    let desk = shared(alloc, Caller::Desk, "k1", renewal(5))?;
    assert!(rt; are_apart(&one, &desk));
    let command = Command::CancelHold {
        hold: HoldId::new(5),
    };
    let caller = patron(alloc, 1, "cardkey00001")?;
    let other = shared(alloc, caller, "k1", command)?;
    assert!(rt; are_apart(&one, &other));
    Ok(())
}

#[test]
fn a_shared_request_can_be_read(rt: HostRuntime) -> Result<(), Fail> {
    let alloc = rt.alloc();
    let one = own(alloc)?;
    let request = one.get();
    assert!(rt; request.caller.owner() == Owner::Patron(PatronId::new(1)));
    assert!(rt; request.key.as_str() == "k1");
    assert!(rt; request_text(alloc, &request.command)?.as_str() == "renew 5");
    Ok(())
}

// ---- workers

#[test]
fn workers_are_numbered_from_1_to_8(rt: HostRuntime) -> Result<(), Fail> {
    for number in 1..9u64 {
        let worker = WorkerId::new(number).ok_or("a worker")?;
        assert!(rt; worker.number() == number);
    }
    for number in [0, 9, u64::MAX] {
        assert!(rt; WorkerId::new(number).is_none(), "{number}");
    }
    Ok(())
}

// ---- a board

/// A page of a patron with this card key.
fn page(alloc: Global, card_key: &str, text: &str) -> Result<OwnPage, Fail> {
    let card_key = CardKey::new(alloc, card_key)?.ok_or("a card key")?;
    let page = Text::new(String::from_str(alloc, text)?);
    Ok(OwnPage {
        card_key,
        reply: Reply::Shown { page },
    })
}

/// What the board shows first: the pages of patrons 1 and 2.
fn first_pages(alloc: Global) -> Result<First, Fail> {
    let one = page(alloc, "cardkey00001", "page 1")?;
    let two = page(alloc, "cardkey00002", "page 2")?;
    let first = First::new(alloc);
    let first = first.with(alloc, PatronId::new(2), two)?;
    let first = first.with(alloc, PatronId::new(1), one)?;
    Ok(first)
}

/// A board for two windows.
fn open_board<J: Naming, R: Wait>(rt: &R, alloc: Global, blank: Blank) -> Result<Publisher<J>, Fail>
    requires { blank ≡ J.book }
    ensures { IfOk result (λ p. p.shown.entries ≡ []) }
{
    let first = first_pages(alloc)?;
    let publisher = Publisher::<J>::new(rt, alloc, blank, first, 2)?;
    Ok(publisher)
}

/// Two windows, if the board has places for them.
fn windows<J: Naming>(publisher: &Publisher<J>) -> Option<(Window<J>, Window<J>)> {
    let one = publisher.window().ok()?;
    let two = publisher.window().ok()?;
    Some((one, two))
}

/// One more page, for the next entry; on failure the board is ended.
fn put<J: Naming, R: Wait>(
    rt: &R,
    alloc: Global,
    publisher: Publisher<J>,
    patron: PatronId,
    page: OwnPage,
) -> Option<Publisher<J>>
    ensures { IfSome result (λ p. p.shown.entries ≡ publisher.shown.entries) }
{
    let mut publisher = publisher;
    match publisher.put(alloc, patron, page) {
        Ok(()) => Some(publisher),
        Err(_) => {
            publisher.close(rt);
            None
        }
    }
}

/// One more entry; on failure the board is ended.
fn show<J: Naming, R: Wait>(
    rt: &R,
    alloc: Global,
    publisher: Publisher<J>,
    entry: Entry,
) -> Option<Publisher<J>>
    requires { (entry.number ≡ count_own entry.worker publisher.shown.entries + 1)
        × LeavesOpen entry.request entry.answer }
    ensures { IfSome result (λ p. p.shown.entries ≡ publisher.shown.entries ++ entry ∷ []) }
{
    let _in_limits = entry.worker.number();
    match publisher.publish(rt, alloc, entry) {
        Ok(publisher) => Some(publisher),
        Err(stopped) => {
            stopped.close(rt);
            None
        }
    }
}

/// What a worker asked for, and the patron's page afterwards.
#[derive(Drop)]
struct Step {
    request: SharedRequest,
    page: OwnPage,
}

/// The very first entry: hold 1, by worker 1 for patron 1.
fn show_one<J: Naming, R: Wait>(
    rt: &R,
    alloc: Global,
    publisher: Publisher<J>,
    step: Step,
) -> Option<Publisher<J>>
    requires { publisher.shown.entries ≡ [] }
    ensures { IfSome result (λ p. count_own 2 p.shown.entries ≡ 0) }
{
    let Step { request, page } = step;
    let publisher = put(rt, alloc, publisher, PatronId::new(1), page)?;
    let Some(worker) = WorkerId::new(1) else {
        publisher.close(rt);
        return None;
    };
    let entry = Entry {
        worker,
        number: 1,
        request,
        answer: Ok(Reply::Held {
            hold: HoldId::new(1),
        }),
    };
    show(rt, alloc, publisher, entry)
}

/// The first entry of worker 2: hold 2, for patron 2.
fn show_two<J: Naming, R: Wait>(
    rt: &R,
    alloc: Global,
    publisher: Publisher<J>,
    step: Step,
) -> Option<Publisher<J>>
    requires { count_own 2 publisher.shown.entries ≡ 0 }
{
    let Step { request, page } = step;
    let publisher = put(rt, alloc, publisher, PatronId::new(2), page)?;
    let Some(worker) = WorkerId::new(2) else {
        publisher.close(rt);
        return None;
    };
    let entry = Entry {
        worker,
        number: 1,
        request,
        answer: Ok(Reply::Held {
            hold: HoldId::new(2),
        }),
    };
    show(rt, alloc, publisher, entry)
}

// ---- what a window shows

/// Whether a page has this card key and this text.
fn is_page(own: &OwnPage, card_key: &str, text: &str) -> bool {
    let shown = match &own.reply {
        Reply::Shown { page } => page.as_str(),
        _ => "",
    };
    own.card_key.as_str() == card_key && shown == text
}

/// Whether a window shows a patron this text with this card key.
fn shows<J: Naming>(window: &mut Window<J>, patron: u32, card_key: &str, text: &str) -> bool {
    match window.page(PatronId::new(patron)) {
        Ok(Some(own)) => is_page(&own, card_key, text),
        _ => false,
    }
}

/// Whether a window shows no page of a patron.
fn shows_none<J: Naming>(window: &mut Window<J>, patron: u32) -> bool {
    match window.page(PatronId::new(patron)) {
        Ok(None) => true,
        _ => false,
    }
}

/// A worker's submission, as a window is asked for it.
#[derive(Drop)]
struct Asked {
    worker: WorkerId,
    number: u64,
    request: SharedRequest,
}

/// Whether an entry is of this submission, with this hold as its reply.
fn is_entry(entry: &Entry, asked: &Asked, hold: u32) -> bool {
    let told = match &entry.answer {
        Ok(Reply::Held { hold: given }) => given.number(),
        _ => 0,
    };
    entry.worker.number() == asked.worker.number()
        && entry.number == asked.number
        && entry.request.is_same(&asked.request)
        && told == hold
}

/// Whether a window shows this hold as the reply to a submission.
fn tells<J: Naming>(window: &mut Window<J>, asked: &Asked, hold: u32) -> bool {
    match window.entry(asked.worker, asked.number, &asked.request) {
        Ok(Some(entry)) => is_entry(&entry, asked, hold),
        _ => false,
    }
}

/// Whether a window shows no reply to a submission.
fn tells_none<J: Naming>(window: &mut Window<J>, asked: &Asked) -> bool {
    match window.entry(asked.worker, asked.number, &asked.request) {
        Ok(None) => true,
        _ => false,
    }
}

/// Whether a window says that the desk is gone, whatever is asked.
fn is_gone<J: Naming>(window: &mut Window<J>, asked: &Asked) -> bool {
    let is_page_gone = match window.page(PatronId::new(1)) {
        Err(unseen) => unseen == ReadError::Gone,
        Ok(_) => false,
    };
    let is_entry_gone = match window.entry(asked.worker, asked.number, &asked.request) {
        Err(unseen) => unseen == ReadError::Gone,
        Ok(_) => false,
    };
    is_page_gone && is_entry_gone
}

// ---- the walk

/// The submission of a worker's patron, by their number: to place a hold.
fn ask(alloc: Global, worker: u64, number: u64, patron_number: u32) -> Result<Asked, Fail> {
    let worker = WorkerId::new(worker).ok_or("a worker")?;
    let request = hold(alloc, patron_number)?;
    Ok(Asked {
        worker,
        number,
        request,
    })
}

/// Patron 1's or 2's request for a hold, each with the key h1.
fn hold(alloc: Global, patron_number: u32) -> Result<SharedRequest, Fail> {
    let card_key = format!(in alloc; "cardkey0000{patron_number}")?;
    let caller = patron(alloc, patron_number, card_key.as_str())?;
    let command = Command::PlaceHold {
        patron: PatronId::new(patron_number),
        title: TitleId::new(100),
        branch: BranchId::new(1),
        first_day: None,
    };
    shared(alloc, caller, "h1", command)
}

/// What the two workers submit, and what they don't.
#[derive(Drop)]
struct AllAsked {
    one: Asked,
    two: Asked,
    others: [Asked; 3],
}

/// Each other submission differs from a handled one in just its number, its request or its worker.
fn all_asked(alloc: Global) -> Result<AllAsked, Fail> {
    let one = ask(alloc, 1, 1, 1)?;
    let two = ask(alloc, 2, 1, 2)?;
    let number = ask(alloc, 1, 2, 1)?;
    let request = ask(alloc, 1, 1, 2)?;
    let worker = ask(alloc, 3, 1, 1)?;
    Ok(AllAsked {
        one,
        two,
        others: [number, request, worker],
    })
}

/// Whether a window shows no reply to what wasn't submitted.
fn tells_no_other<J: Naming>(window: &mut Window<J>, all: &AllAsked) -> bool {
    for other in &all.others {
        if !tells_none(window, other) {
            return false;
        }
    }
    true
}

/// Whether a window shows the first pages, and nothing handled.
fn is_as_opened<J: Naming>(window: &mut Window<J>, all: &AllAsked) -> bool {
    shows(window, 1, "cardkey00001", "page 1")
        && shows(window, 2, "cardkey00002", "page 2")
        && shows_none(window, 3)
        && tells_none(window, &all.one)
        && tells_none(window, &all.two)
        && tells_no_other(window, all)
}

/// Whether a window shows only the first entry, with its page.
fn is_after_one<J: Naming>(window: &mut Window<J>, all: &AllAsked) -> bool {
    shows(window, 1, "cardkey00001", "page 1 with hold 1")
        && shows(window, 2, "cardkey00002", "page 2")
        && shows_none(window, 3)
        && tells(window, &all.one, 1)
        && tells_none(window, &all.two)
        && tells_no_other(window, all)
}

/// Whether a window shows the second worker's entry too, and still the first one's.
fn is_after_two<J: Naming>(window: &mut Window<J>, all: &AllAsked) -> bool {
    shows(window, 1, "cardkey00001", "page 1 with hold 1")
        && shows(window, 2, "cardkey00002", "page 2 with hold 2")
        && shows_none(window, 3)
        && tells(window, &all.one, 1)
        && tells(window, &all.two, 2)
        && tells_no_other(window, all)
}

/// The two steps of the walk.
fn steps(alloc: Global) -> Result<(Step, Step), Fail> {
    let request = hold(alloc, 1)?;
    let new_page = page(alloc, "cardkey00001", "page 1 with hold 1")?;
    let one = Step {
        request,
        page: new_page,
    };
    let request = hold(alloc, 2)?;
    let new_page = page(alloc, "cardkey00002", "page 2 with hold 2")?;
    let two = Step {
        request,
        page: new_page,
    };
    Ok((one, two))
}

/// Whether both windows show what they should: at first, after one entry, after two, and after the
/// board is closed. None if memory ran out.
fn walk<J: Naming, R: Wait>(
    rt: &R,
    alloc: Global,
    publisher: Publisher<J>,
    windows: (Window<J>, Window<J>),
    all: &AllAsked,
    steps: (Step, Step),
) -> Option<[bool; 4]>
    requires { publisher.shown.entries ≡ [] }
{
    let (mut one, mut two) = windows;
    let (first, second) = steps;
    let opened = is_as_opened(&mut one, all) && is_as_opened(&mut two, all);
    let publisher = show_one(rt, alloc, publisher, first)?;
    let shown = is_after_one(&mut one, all) && is_after_one(&mut two, all);
    let publisher = show_two(rt, alloc, publisher, second)?;
    let both = is_after_two(&mut one, all) && is_after_two(&mut two, all);
    publisher.close(rt);
    let ended = is_gone(&mut one, &all.one) && is_gone(&mut two, &all.one);
    Some([opened, shown, both, ended])
}

/// What two windows show of a board with two entries.
fn look_on<J: Naming, R: Wait>(rt: &R, alloc: Global, blank: Blank) -> Result<[bool; 4], Fail>
    requires { blank ≡ J.book }
{
    let all = all_asked(alloc)?;
    let steps = steps(alloc)?;
    let publisher = open_board::<J, R>(rt, alloc, blank)?;
    let Some(windows) = windows(&publisher) else {
        publisher.close(rt);
        return Err("two windows".into());
    };
    let seen = walk(rt, alloc, publisher, windows, &all, steps).ok_or("memory")?;
    Ok(seen)
}

#[test]
fn each_entry_is_shown_with_its_page(rt: HostRuntime) -> Result<(), Fail> {
    let seen = look_on::<Brand, _>(&rt, rt.alloc(), Blank::new())?;
    assert!(rt; seen == [true; 4], "{seen:?}");
    Ok(())
}

/// Whether a window shows what it should of a board stopped with a page waiting: what it showed,
/// until it is ended; and whether what two windows saw was shown. None if memory ran out.
fn walk_stopped<J: Naming, R: Wait>(
    rt: &R,
    alloc: Global,
    publisher: Publisher<J>,
    windows: (Window<J>, Window<J>),
    all: &AllAsked,
    page: OwnPage,
) -> Option<[bool; 3]> {
    let (mut one, two) = windows;
    let publisher = put(rt, alloc, publisher, PatronId::new(1), page)?;
    let stopped = publisher.stop();
    let shown = is_as_opened(&mut one, all);
    let nothing = two.leave();
    let none = stopped.has_shown(&nothing);
    stopped.close(rt);
    Some([shown, none, is_gone(&mut one, &all.one)])
}

/// What windows show of a stopped board.
fn look_on_stopped<J: Naming, R: Wait>(
    rt: &R,
    alloc: Global,
    blank: Blank,
) -> Result<[bool; 3], Fail>
    requires { blank ≡ J.book }
{
    let all = all_asked(alloc)?;
    let (step, _second) = steps(alloc)?;
    let Step {
        request: _request,
        page,
    } = step;
    let publisher = open_board::<J, R>(rt, alloc, blank)?;
    let Some(windows) = windows(&publisher) else {
        publisher.close(rt);
        return Err("two windows".into());
    };
    let seen = walk_stopped(rt, alloc, publisher, windows, &all, page).ok_or("memory")?;
    Ok(seen)
}

#[test]
fn a_stopped_board_shows_what_it_showed(rt: HostRuntime) -> Result<(), Fail> {
    let seen = look_on_stopped::<Brand, _>(&rt, rt.alloc(), Blank::new())?;
    assert!(rt; seen == [true; 3], "{seen:?}");
    Ok(())
}

/// Whether a board for two windows has a place for a third.
fn has_third<J: Naming>(publisher: &Publisher<J>) -> bool {
    match windows(publisher) {
        Some((_one, _two)) => publisher.window().is_ok(),
        None => true,
    }
}

/// Whether a board for two windows has no third place, and has both again after they leave.
fn count_places<J: Naming, R: Wait>(rt: &R, alloc: Global, blank: Blank) -> Result<[bool; 2], Fail>
    requires { blank ≡ J.book }
{
    let publisher = open_board::<J, R>(rt, alloc, blank)?;
    let is_full = !has_third(&publisher);
    let is_free = windows(&publisher).is_some();
    publisher.close(rt);
    Ok([is_full, is_free])
}

#[test]
fn a_window_that_is_left_gives_its_place_back(rt: HostRuntime) -> Result<(), Fail> {
    let places = count_places::<Brand, _>(&rt, rt.alloc(), Blank::new())?;
    assert!(rt; places == [true; 2], "{places:?}");
    Ok(())
}
