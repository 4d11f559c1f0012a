//! What the readers and the writer of the view do.

ghost use Rattle.std.specs.Prelude.{◌≡◌, ◌<◌, ◌^◌, [], ◌∷◌, ◌++◌, IfOk, IfErr, MatchResult, if◌then◌else◌, drop};
ghost use mathlib.Core.List.{IsPrefix};
ghost use Rattle.view.specs.ViewState.{IsExact, after_publications};
ghost use Rattle.view.specs.NextPublications.{AllFollow};

use crate::history_name::Naming;
use crate::history_view::View;
use crate::publication::Publication;
use crate::rule::{Turning, ViewRule};
use left_right::reader::{Reader, Reading};
use left_right::writer::Writer;
use std::alloc::Global;
use std::sync::Wait;
use wire::Memory;

/// A reader that has no view entered.
pub type ViewReader<J> = Reader<View, (), ViewRule<J>>;

/// A reader in the view that it entered. While it stays there the next publication but one waits for it.
pub type ViewReading<J> = Reading<View, (), ViewRule<J>>;

/// The writer, who alone publishes.
pub type ViewWriter<J> = Writer<View, Publication, (), ViewRule<J>>;

/// A writer over two equal views, with room for so many readers.
pub fn open_writer<J: Naming>(
    alloc: Global,
    first: View,
    second: View,
    readers: usize,
) -> Result<ViewWriter<J>, Memory>
    requires readers { (0 < readers) × (readers < 2 ^ 32) }
    requires alike { second ≡ first }
    requires exact { IsExact first }
    requires origin { first.origin ≡ J.origin }
    ensures shown { IfOk result (λ w. w.desk.shown.value ≡ first) }
    ensures pending { IfOk result (λ w. drop w.behind w.log.items ≡ []) }
{
    Ok(Writer::new(alloc, first, second, readers)?)
}

/// Enters the view that was published last. The reader comes back where the writer is gone.
pub fn enter<J: Naming>(reader: ViewReader<J>) -> Result<ViewReading<J>, ViewReader<J>>
    ensures exact { IfOk result (λ r. IsExact r.part.value) }
    ensures origin { IfOk result (λ r. r.part.value.origin ≡ J.origin) }
{
    reader.enter_as::<Turning<J>>()
}

/// Publishes what is pending, and then this: true. Or it is pending too (false), or comes back where there is no room
/// for it; then readers see what they saw.
pub fn publish<J: Naming, R: Wait>(
    rt: &R,
    writer: ViewWriter<J>,
    publication: Publication,
) -> (ViewWriter<J>, Result<bool, Publication>)
    requires exact { IsExact writer.desk.shown.value }
    requires follows { let pending = drop writer.behind writer.log.items in
        AllFollow writer.desk.shown.value (pending ++ publication ∷ []) }
    ensures exact { IsExact result.0.desk.shown.value }
    ensures grows { IsPrefix writer.desk.shown.value.journal result.0.desk.shown.value.journal }
    ensures shown { let was = writer.desk.shown.value in
        let all = drop writer.behind writer.log.items ++ publication ∷ [] in
        let shown = result.0.desk.shown.value in
        MatchResult result.1
        (λ done. shown ≡ (if done then after_publications was all else was)) (λ _. shown ≡ was) }
    ensures pending { let pending = drop writer.behind writer.log.items in
        let left = drop result.0.behind result.0.log.items in
        MatchResult result.1
        (λ done. left ≡ (if done then [] else pending ++ publication ∷ [])) (λ _. left ≡ pending) }
    ensures given_back { IfErr result.1 (λ back. back ≡ publication) }
{
    let mut writer = writer;
    if let Err(publication) = writer.append(publication) {
        return (writer, Err(publication));
    }
    let (writer, shown) = writer.publish_as::<Turning<J>, R>(rt);
    match shown {
        Ok(()) => (writer, Ok(true)),
        Err(_) => (writer, Ok(false)),
    }
}

/// One reader more.
pub fn another_reader<J: Naming>(writer: &ViewWriter<J>) -> Result<ViewReader<J>, Memory> {
    Ok(writer.factory().reader()?)
}
