//! A hall closed by a refused database call, and another over its desk.

use crate::bytes::{answer, told};
use crate::calls::connection;
use crate::library::library;
use crate::visits::{Visit, run_over};
use hall::{Opening, Worker};
use std::alloc::Global;
use std::sync::Wait;
use std::test::Fail;
use terms::{Fault, ServiceFault};
use test_library::rows;

/// A request, and its answer if the hall goes on.
type Asked = (&'static str, &'static str);

const LENDING: Asked = (
    "POST /desk HTTP/1.1\r\nDesk-Key: deskkey00001\r\nRequest-Key: k1\r\nContent-Length: 26\r\n\r\n[\"check-out\",\"1\",\"10\",\"1\"]",
    "200 OK {\"reply\":\"loan 1 due 2026-03-09\"}",
);

const RENEWING: Asked = (
    "POST /desk HTTP/1.1\r\nDesk-Key: deskkey00001\r\nRequest-Key: k2\r\nContent-Length: 13\r\n\r\n[\"renew\",\"1\"]",
    "200 OK {\"reply\":\"loan 1 due 2026-03-16\"}",
);

const BOS_PAGE: Asked = (
    "GET /patrons/2 HTTP/1.1\r\nCard-Key: cardkey00002\r\n\r\n",
    "200 OK {\"reply\":\"patron 2 owed 0 name Bo Carr\"}",
);

/// The faults instead of the loan, of its renewal, and of another patron's page.
pub type Faults = (Option<u32>, Option<u32>, Option<u32>);

/// The fault instead of the answer, if any. None if something else comes.
fn fault_of<J: Opening, R: Wait>(
    rt: &R,
    alloc: Global,
    worker: &mut Worker<J>,
    (request, text): Asked,
) -> Option<Option<u32>> {
    let met = told(rt, alloc, worker, request)?;
    if met.as_str() == answer(alloc, text)?.as_str() {
        return Some(None);
    }
    for number in [91u32, 92] {
        let line = format!(in alloc; "503 Service Unavailable {{\"fault\":{number}}}").ok()?;
        if met.as_str() == answer(alloc, &line)?.as_str() {
            return Some(Some(number));
        }
    }
    None
}

/// The first worker is asked for the loan, then the second for the rest.
#[derive(Clone, Copy)]
pub struct Lending;

impl Visit for Lending {
    type Found = Faults;

    fn ask<J: Opening, R: Wait>(
        self,
        rt: &R,
        alloc: Global,
        one: &mut Worker<J>,
        two: &mut Worker<J>,
    ) -> Option<Faults> {
        let lending = fault_of(rt, alloc, one, LENDING)?;
        let renewing = fault_of(rt, alloc, two, RENEWING)?;
        Some((lending, renewing, fault_of(rt, alloc, two, BOS_PAGE)?))
    }
}

#[test]
fn a_new_hall_over_the_desk_of_a_closed_one_goes_on(rt: HostRuntime) -> Result<(), Fail> {
    let alloc = rt.alloc();
    let limited = run_over(rt, alloc, library(alloc)?, Some(1), Lending)?;
    let Ok((faults, mut desk, _, fault)) = limited else {
        return Err("a hall".into());
    };
    assert!(&rt;
        faults == Some((Some(91), Some(92), None))
            && fault == Some(ServiceFault::Met(Fault::Database)),
        "{faults:?} {fault:?}"
    );
    desk.limit_steps(None);
    let Ok((faults, desk, _, fault)) = run_over(rt, alloc, desk, None, Lending)? else {
        return Err("a hall".into());
    };
    assert!(&rt;
        faults == Some((None, None, None)) && fault == None,
        "{faults:?} {fault:?}"
    );
    let text = rows(alloc, &mut connection(desk))?;
    let loans = "\n1|10|1|1|20514|20528|6|0|20|100|none|0|;";
    assert!(&rt; text.contains(loans), "{text}");
    Ok(())
}
