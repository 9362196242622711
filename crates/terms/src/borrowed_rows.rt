//! Rows to write, with borrowed texts: clauses see the row itself.

ghost use Rattle.terms.specs.declared.row.BranchRow.{BranchRow};
ghost use Rattle.terms.specs.declared.row.PatronRow.{PatronRow};
ghost use Rattle.terms.specs.declared.row.TitleRow.{TitleRow};
ghost use Rattle.std.specs.Prelude.{option_map};
ghost use Rattle.terms.specs.declared.row.KeptRow.{KeptRow};
ghost use Rattle.terms.specs.declared.row.BarcodeRow.{BarcodeRow};
ghost use Rattle.terms.specs.declared.row.NoteRow.{NoteRow};

use crate::command::Owner;
use crate::number::{BranchId, Cents, Days, LineId, PatronId, PatronKind, TitleId};
use crate::row::Thing;
use crate::text::{Barcode, CardKey, Key, Name, Text};
use calendar::Weekdays;
use std::marker::Model;

/// A row of `branches`.
#[derive(Drop)]
pub struct BranchPut<'a> {
    pub branch: BranchId,
    pub pickup: Days,
    pub week: Weekdays,
    pub name: &'a Name,
}

impl<'a> Model for BranchPut<'a> {
    ghost Value = { BranchRow };

    ghost view = { λ r. record {
      branch = r.branch;
      pickup = r.pickup;
      week = r.week;
      name = r.name.now;
    } };
}

/// A row of `patrons`.
#[derive(Drop)]
pub struct PatronPut<'a> {
    pub patron: PatronId,
    pub kind: PatronKind,
    pub card_key: &'a CardKey,
    pub name: &'a Name,
    pub owed: Cents,
}

impl<'a> Model for PatronPut<'a> {
    ghost Value = { PatronRow };

    ghost view = { λ r. record {
      patron = r.patron;
      kind = r.kind;
      card_key = r.card_key.now;
      name = r.name.now;
      owed = r.owed;
    } };
}

/// A row of `titles`.
#[derive(Drop)]
pub struct TitlePut<'a> {
    pub title: TitleId,
    pub text: &'a Name,
}

impl<'a> Model for TitlePut<'a> {
    ghost Value = { TitleRow };

    ghost view = { λ r. record { title = r.title; text = r.text.now } };
}

/// A row of `kept`.
#[derive(Drop)]
pub struct KeptPut<'a> {
    pub caller: Owner,
    pub key: &'a Key,
    pub text: &'a Text,
    pub reply: &'a Text,
}

impl<'a> Model for KeptPut<'a> {
    ghost Value = { KeptRow };

    ghost view = { λ r. record {
      caller = r.caller;
      key = r.key.now;
      text = r.text.now;
      reply = r.reply.now;
    } };
}

/// A row of `barcodes`.
#[derive(Drop)]
pub struct BarcodePut<'a> {
    pub thing: Thing,
    pub barcode: &'a Barcode,
}

impl<'a> Model for BarcodePut<'a> {
    ghost Value = { BarcodeRow };

    ghost view = { λ r. record { thing = r.thing; barcode = r.barcode.now } };
}

/// A row of `notes`.
#[derive(Drop)]
pub struct NotePut<'a> {
    pub line: LineId,
    pub branch: BranchId,
    pub text: Option<&'a Name>,
}

impl<'a> Model for NotePut<'a> {
    ghost Value = { NoteRow };

    ghost view = { λ r. record {
      line = r.line;
      branch = r.branch;
      text = option_map (λ t. t.now) r.text;
    } };
}
