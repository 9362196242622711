//! Views of a single row.

ghost use Rattle.std.specs.Prelude.{◌≡◌, ℕ, Bool, List, Option, IfOk, option_map};
ghost use Rattle.circ_core.specs.Views.{HasOnly, IsThingOf};
ghost use Rattle.circ_tables.specs.Reading.{IsSoundIn, Views};
ghost use Rattle.terms.specs.Limits.{InLimits};
ghost use Rattle.terms.specs.declared.command.Command.TheVariants.{AmendCopy, AmendTitle, BeginDay};
ghost use Rattle.terms.specs.declared.command.Command.TheVariants.{DropBarcode, Grace, Page, Rule};
ghost use Rattle.terms.specs.declared.command.Command.TheVariants.{Week};
ghost use Rattle.terms.specs.declared.row.BarcodeRow.{BarcodeRow};
ghost use Rattle.terms.specs.declared.row.Thing.{Thing};

use circ_core::View;
use circ_tables::{find_barcode, get_meta, get_row, get_rule};
use sqlite::{Alter, Connection};
use std::alloc::Global;
use terms::{
    Barcode, BarcodeRow, BranchId, BranchRow, CopyId, CopyKind, CopyRow, Fault, KindRow, PatronId,
    PatronKind, PatronRow, Thing, TitleId, TitleRow,
};

/// Reads today and the next numbers.
pub(crate) fn meta_view<S: Alter>(conn: &mut Connection<S>) -> Result<View, Fault>
    ensures view { Views (λ P rows. rows.meta ≡ P.meta) S.Store conn.old conn.new result }
    ensures only { (day : ℕ) → IfOk result (HasOnly (BeginDay day)) }
{
    let meta = get_meta(conn)?;
    Ok(View {
        meta,
        ..View::empty()
    })
}

/// Reads only a branch.
pub(crate) fn branch_row_view<S: Alter>(
    conn: &mut Connection<S>,
    alloc: Global,
    number: BranchId,
) -> Result<View, Fault>
    ensures view { Views (λ P rows. rows.branch ≡ P.branches number)
        S.Store conn.old conn.new result }
    ensures only { (week : List Bool) → IfOk result (HasOnly (Week number week)) }
{
    let branch = get_row::<BranchRow, S>(conn, alloc, number)?;
    Ok(View {
        branch,
        ..View::empty()
    })
}

/// Reads only a kind of patron.
pub(crate) fn kind_view<S: Alter>(
    conn: &mut Connection<S>,
    number: PatronKind,
) -> Result<View, Fault>
    ensures view { Views (λ P rows. rows.kind ≡ P.kinds number) S.Store conn.old conn.new result }
    ensures only { (copy_kind period renewals rate cap : ℕ)
        → IfOk result (HasOnly (Rule number copy_kind period renewals rate cap)) }
{
    let kind = get_row::<KindRow, S>(conn, (), number)?;
    Ok(View {
        kind,
        ..View::empty()
    })
}

/// Reads only the circulation rule of a kind of patron and a kind of copy.
pub(crate) fn rule_view<S: Alter>(
    conn: &mut Connection<S>,
    kind: PatronKind,
    copy_kind: CopyKind,
) -> Result<View, Fault>
    ensures view { Views (λ P rows. rows.rule ≡ P.rules kind copy_kind)
        S.Store conn.old conn.new result }
    ensures only { (days : ℕ) → IfOk result (HasOnly (Grace kind copy_kind days)) }
{
    let rule = get_rule(conn, kind, copy_kind)?;
    Ok(View {
        rule,
        ..View::empty()
    })
}

/// Reads only a patron.
pub(crate) fn page_view<S: Alter>(
    conn: &mut Connection<S>,
    alloc: Global,
    number: PatronId,
) -> Result<View, Fault>
    ensures view { Views (λ P rows. rows.patron ≡ P.patrons number)
        S.Store conn.old conn.new result }
    ensures only { IfOk result (HasOnly (Page number)) }
{
    let patron = get_row::<PatronRow, S>(conn, alloc, number)?;
    Ok(View {
        patron,
        ..View::empty()
    })
}

/// Reads only a title.
pub(crate) fn title_view<S: Alter>(
    conn: &mut Connection<S>,
    alloc: Global,
    number: TitleId,
) -> Result<View, Fault>
    ensures view { Views (λ P rows. rows.title ≡ P.titles number) S.Store conn.old conn.new result }
    ensures only { (text : List ℕ) → IfOk result (HasOnly (AmendTitle number text)) }
{
    let title = get_row::<TitleRow, S>(conn, alloc, number)?;
    Ok(View {
        title,
        ..View::empty()
    })
}

/// Reads only a copy.
pub(crate) fn copy_row_view<S: Alter>(
    conn: &mut Connection<S>,
    number: CopyId,
) -> Result<View, Fault>
    ensures view { Views (λ P rows. rows.copy ≡ P.copies number) S.Store conn.old conn.new result }
    ensures only { (kind price : ℕ) → IfOk result (HasOnly (AmendCopy number kind price)) }
{
    let copy = get_row::<CopyRow, S>(conn, (), number)?;
    Ok(View {
        copy,
        ..View::empty()
    })
}

/// Returns what a row of `barcodes` is of.
fn thing_of(row: Option<BarcodeRow>) -> Option<Thing>
    ensures { result ≡ option_map (λ r. r.thing) row }
{
    match row {
        Some(row) => Some(row.thing),
        None => None,
    }
}

/// Reads which copy or patron has the barcode, if any has.
pub(crate) fn labelled<S: Alter>(
    conn: &mut Connection<S>,
    alloc: Global,
    barcode: &Barcode,
) -> Result<Option<Thing>, Fault>
    ensures view { Views (λ P thing. IsThingOf P barcode.now thing)
        S.Store conn.old conn.new result }
    ensures sound { IsSoundIn InLimits S.Store conn.old conn.new result }
{
    let row = find_barcode(conn, alloc, barcode)?;
    Ok(thing_of(row))
}

/// Reads only what has the barcode.
pub(crate) fn labelled_view<S: Alter>(
    conn: &mut Connection<S>,
    alloc: Global,
    barcode: &Barcode,
) -> Result<View, Fault>
    ensures view { Views (λ P rows. IsThingOf P barcode.now rows.labelled)
        S.Store conn.old conn.new result }
    ensures only { IfOk result (HasOnly (DropBarcode barcode.now)) }
{
    let labelled = labelled(conn, alloc, barcode)?;
    Ok(View {
        labelled,
        ..View::empty()
    })
}
