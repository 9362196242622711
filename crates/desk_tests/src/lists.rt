//! Lists of requests, by the desk and by patrons; a patron's own page; all rows; and what is opened
//! or made.

use crate::calls::{create, page};
use desk::Desk;
use sqlite::{Alter, Connection, MemStore};
use std::alloc::Global;
use std::process::Abort;
use std::test::Fail;
use terms::{CardKey, Fault, PatronId};
use test_library::{check, connection, counts, ground, open, opened, runs, store_of};

/// What patrons ask for once copy 10 is lent to patron 1, and copies 20 and 30 are on the shelf;
/// and the desk's questions, which no patron is answered. They ignore used keys, and keep none.
const ASKED: &str = "desk a1 check-out 1 10 1 -> loan 1 due 2026-03-09
1/cardkey00001 m1 check-out 1 20 2 -> refused 81
1/cardkey00002 m1 check-out 1 20 2 -> refused 81
8/cardkey00001 m1 check-out 1 20 2 -> refused 81
2/cardkey00002 m1 place-hold 3 100 1 -> refused 81
2/cardkey00003 m1 place-hold 2 100 1 -> refused 81
8/cardkey00002 m1 place-hold 8 100 1 -> refused 81
2/cardkey00002 m1 pay 2 1 -> refused 81
2/cardkey00002 m1 grace 1 1 2 -> refused 81
2/cardkey00002 m1 place-hold 2 100 1 -> hold 1
2/cardkey00002 m1 place-hold 2 100 1 -> hold 1
2/cardkey00002 m1 page 2 -> patron 2 owed 0 name Bo Carr; hold 1 at 1 waiting title 100 Rivers of the North
2/cardkey00002 m1 page 3 -> refused 81
8/cardkey00002 m1 page 8 -> refused 81
2/cardkey00002 m1 place-hold 2 100 2 -> refused 80
2/cardkey00002 m1 cancel-hold 1 -> refused 80
3/cardkey00003 m1 cancel-hold 1 -> refused 15
3/cardkey00003 m1 renew 1 -> refused 14
3/cardkey00003 m2 cancel-hold 9 -> refused 15
1/cardkey00001 m1 renew 1 -> refused 36
2/cardkey00002 m2 cancel-hold 1 -> ok
2/cardkey00002 m3 renew 1 -> refused 14
2/cardkey00002 m3 renew 9 -> refused 14
1/cardkey00001 m1 renew 1 -> loan 1 due 2026-03-16
desk m1 close-day 1 2026-12-24 -> ok
desk m2 check-out 2 20 2 -> loan 2 due 2026-03-10
desk m3 check-in 30 2 -> fine 0 transit 1
desk m4 begin-day 2026-03-11 -> ok
desk m5 check-in 20 2 -> fine 20 shelf 2
1/cardkey00001 m9 copy 10 -> refused 81
1/cardkey00001 m1 copies 100 0 -> refused 81
2/cardkey00002 m9 queue 100 0 -> refused 81
2/cardkey00002 m9 account 2 0 -> refused 81
2/cardkey00002 m1 debts 0 -> refused 81
3/cardkey00003 m9 overdue 1 0 -> refused 81
3/cardkey00003 m9 shelf 1 0 -> refused 81
8/cardkey00001 m9 pulls 1 0 -> refused 81
1/cardkey00002 m9 transits 1 0 -> refused 81
1/cardkey00001 m9 till 2026-03-11 -> refused 81
1/cardkey00001 m9 branches 0 -> refused 81
1/cardkey00001 m1 closed-days 1 0 -> refused 81
2/cardkey00002 m9 kinds 0 -> refused 81
8/cardkey00001 m9 rules 1 0 -> refused 81
desk m1 copy 10 -> copy 10 home 1 kind 1 price 2500 title 100 Rivers of the North; loan 1 due 2026-03-16 patron 1 Ann Bell
desk m1 copies 100 0 -> title 100 Rivers of the North; copy 10 loan 1 due 2026-03-16; copy 11 shelf 1; end
desk m9 queue 100 0 -> title 100 Rivers of the North; end
desk m9 account 2 0 -> patron 2 owed 20 name Bo Carr; line 1 2026-03-11 fine 20 loan 2 title 200 Salt Roads; end
desk m9 debts 0 -> patron 2 owed 20 name Bo Carr; end
desk m9 debts 2 -> end
desk m9 overdue 1 0 ->       loan  patron    copy due         late title; end
desk m9 shelf 1 0 ->       hold    copy  patron until      title; end
desk m9 pulls 1 0 -> end
desk m9 transits 1 0 -> copy 30 title 300 Night Ferries; end
desk m9 till 2026-03-11 -> till 2026-03-11; fines                 20; prices                 0; payments               0; waivers                0
desk m1 branches 0 -> branch 1 pickup 5 week ooooooc name Main; branch 2 pickup 3 week coooooc name Harbour; end
desk m9 branches 1 -> branch 2 pickup 3 week coooooc name Harbour; end
desk m1 closed-days 1 0 -> day 2026-12-24; end
desk m9 closed-days 2 0 -> end
desk m9 kinds 0 -> kind 1 loans 5 holds 5 debt 500; end
desk m9 rules 1 0 -> rule 1 1 period 6 renewals 1 rate 20 cap 100 grace 0; rule 1 2 period 12 renewals 1 rate 20 cap 100 grace 0; end
desk m9 closed-days 9 0 -> refused 10
desk m9 rules 9 0 -> refused 17
desk m9 copy 99 -> refused 13
desk m9 pulls 9 0 -> refused 10
desk m9 check-in 30 1 -> fine 0 shelf 1
desk m9 transits 1 0 -> end
desk m9 check-in 30 1 -> fine 0 shelf 1";

/// A patron who shows this card key is shown this text.
fn shows<S: Alter>(
    rt: &impl Abort,
    alloc: Global,
    desk: &mut Desk<S>,
    (patron, card_key, text): (u32, &str, &str),
) -> Result<(), Fail> {
    let shown = CardKey::new(alloc, card_key)?.ok_or("a card key")?;
    let reply = page(desk, alloc, PatronId::new(patron), &shown)?;
    assert!(rt; format!(in alloc; "{reply}")?.as_str() == text, "{text}");
    Ok(())
}

/// Patrons are answered, and shown their own pages.
fn serves<S: Alter>(rt: &impl Abort, alloc: Global, desk: &mut Desk<S>) -> Result<(), Fail> {
    check(alloc, desk, ASKED)?;
    let own =
        "patron 1 owed 0 name Ann Bell\nloan 1 due 2026-03-16 renewals 0 title 100 Rivers of the North";
    shows(rt, alloc, desk, (1, "cardkey00001", own))?;
    shows(rt, alloc, desk, (1, "cardkey00002", "refused 81"))?;
    shows(rt, alloc, desk, (8, "cardkey00001", "refused 81"))
}

#[test]
fn serves_patrons_their_own(rt: HostRuntime) -> Result<(), Fail> {
    let alloc = rt.alloc();
    let mut desk = ground(alloc)?;
    serves(&rt, alloc, &mut desk)?;
    let found = counts(&mut store_of(desk), alloc)?;
    // next loan; branches, closed days, kinds, rules, patrons, titles, copies; loans, holds,
    // transits, lines; barcodes, notes; kept, and by patrons
    assert!(rt; found == [3, 2, 1, 1, 2, 3, 3, 4, 2, 1, 0, 1, 0, 0, 25, 3]);
    Ok(())
}

/// What is labelled, what is charged at a branch, and what is paid there.
const LABELLED: &str = "desk b1 copy-barcode 10 30000100000010 -> ok
desk b2 copy-barcode 99 30000100000010 -> refused 13
desk b2 patron-barcode 9 X1 -> refused 11
desk b2 copy-barcode 11 30000100000010 -> refused 26
desk b2 patron-barcode 2 30000100000010 -> refused 26
desk b2 patron-barcode 1 a1 -> ok
desk b3 copy-barcode 10 01 -> ok
desk b9 find-barcode 30000100000010 -> refused 18
desk b9 find-barcode A1 -> refused 18
desk b9 find-barcode a1 -> patron 1
desk b9 find-barcode 1 -> refused 18
desk b9 find-barcode 01 -> copy 10
desk b9 copy 10 -> copy 10 home 1 kind 1 price 2500 title 100 Rivers of the North; shelf 1; barcode 01
desk b9 borrower 1 -> patron 1 owed 0 name Ann Bell; kind 1; barcode a1
desk b4 drop-barcode a1 -> ok
desk b5 drop-barcode a1 -> refused 18
desk b5 charge 9 1000001 9 Card -> refused 21
desk b5 charge 9 0 9 Card -> refused 11
desk b5 charge 2 0 9 Card -> refused 10
desk b5 charge 2 0 1 Card -> refused 60
desk b5 charge 2 250 1|Photocopies, 10 pages -> owed 250
desk b6 pay-at 2 251 1 -> refused 60
desk b6 pay-at 9 100 2 -> refused 11
desk b6 pay-at 2 100 9 -> refused 10
desk b6 pay-at 2 100 2 -> owed 150
desk b7 pay 2 50 -> owed 100
desk b9 account 2 0 -> patron 2 owed 100 name Bo Carr; line 1 2026-03-02 charge 250 at 1 for Photocopies, 10 pages; line 2 2026-03-02 payment 100 at 2; line 3 2026-03-02 payment 50; end
desk b9 till 2026-03-02 -> till 2026-03-02; fines                  0; prices                 0; payments             150; waivers                0; charges              250
desk b9 till-at 1 2026-03-02 -> till 2026-03-02 at 1; payments               0; charges              250
desk b9 till-at 2 2026-03-02 -> till 2026-03-02 at 2; payments             100; charges                0
desk b9 till-at 9 2026-03-02 -> refused 10
desk b9 till 2026-03-03 -> till 2026-03-03; fines                  0; prices                 0; payments               0; waivers                0
2/cardkey00002 b9 find-barcode 01 -> refused 81";

#[test]
fn labels_copies_and_patrons_and_charges_at_a_branch(rt: HostRuntime) -> Result<(), Fail> {
    let alloc = rt.alloc();
    let mut desk = ground(alloc)?;
    check(alloc, &mut desk, LABELLED)?;
    let found = counts(&mut store_of(desk), alloc)?;
    assert!(rt; found == [1, 2, 0, 1, 2, 3, 3, 4, 0, 0, 0, 3, 1, 2, 22, 0]);
    Ok(())
}

/// Requests, the third of which finds a damaged row.
const ENDED: &str = "desk a1 check-out 1 10 1 -> loan 1 due 2026-03-09
desk a2 check-out 9 11 1 -> refused 11
desk a3 check-out 2 11 1 -> none
desk a4 begin-day 2026-03-03 -> none";

/// The desk over rows of which patron 2's is damaged.
fn damaged(mut conn: Connection<MemStore>) -> Result<Desk<MemStore>, Fail> {
    conn.execute("UPDATE patrons SET kind = 100 WHERE patron = 2", &[])?;
    opened(conn)
}

#[test]
fn a_list_ends_at_a_fault_after_the_replies_before_it(rt: HostRuntime) -> Result<(), Fail> {
    let alloc = rt.alloc();
    let mut desk = damaged(connection(ground(alloc)?))?;
    let (answered, fault) = runs(alloc, &mut desk, ENDED)?;
    assert!(rt; answered == 2 && fault == Some(Fault::Stored));
    Ok(())
}

/// Requests after the next loan number was set back: what gives no number is handled, and the
/// number of loan 1 isn't given again.
const SET_BACK: &str = "desk b1 check-in 10 1 -> fine 0 shelf 1
desk b2 check-out 2 11 1 -> none";

#[test]
fn a_number_that_has_a_row_is_not_given_again(rt: HostRuntime) -> Result<(), Fail> {
    let alloc = rt.alloc();
    let mut desk = ground(alloc)?;
    check(
        alloc,
        &mut desk,
        "desk a1 check-out 1 10 1 -> loan 1 due 2026-03-09",
    )?;
    let mut conn = connection(desk);
    conn.execute("UPDATE meta SET next_loan = 1", &[])?;
    let mut desk = opened(conn)?;
    let (answered, fault) = runs(alloc, &mut desk, SET_BACK)?;
    assert!(rt; answered == 1 && fault == Some(Fault::Stored));
    let found = counts(&mut store_of(desk), alloc)?;
    assert!(rt; found[0] == 1 && found[8] == 1);
    Ok(())
}

/// An empty database inside a transaction.
fn begun(alloc: Global) -> Result<Connection<MemStore>, Fail> {
    let mut conn = Connection::open_in_memory(alloc)?;
    conn.execute("BEGIN", &[])?;
    Ok(conn)
}

#[test]
fn makes_no_second_library_and_opens_none_that_is_not_there(rt: HostRuntime) -> Result<(), Fail> {
    let alloc = rt.alloc();
    assert!(rt; create(connection(ground(alloc)?)).err() == Some(Fault::Database));
    assert!(rt; create(begun(alloc)?).err() == Some(Fault::Database));
    assert!(rt; open(begun(alloc)?).err() == Some(Fault::Database));
    assert!(rt; open(Connection::open_in_memory(alloc)?).err() == Some(Fault::Stored));
    Ok(())
}
