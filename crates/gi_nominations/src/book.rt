ghost use Rattle.std.specs.Prelude.{◌≡◌, ℕ, List, [], Some, None, true, false, All, OnOk, OnErr};
ghost use Rattle.std.specs.Option.{option_copied};
ghost use Rattle.jiff_core.specs.declared.civil.date.Date.{Date};
ghost use Rattle.gi_messages.specs.declared.message.Nomint.{Nomint};
ghost use Rattle.gi_nominations.specs.Book.{in_force as in_force_of, is_of, DocumentStands, IsNewer, IsUpTo};
ghost use Rattle.gi_nominations.specs.declared.verdict.Verdict.TheVariants as Verdict;
ghost use Rattle.gi_nominations.specs.Judging.{verdict, IsRecordable, IsRepeat, by_version as judged_by_version};

use crate::judging::{is_day_over, lines_fault};
use crate::nomination_fault::NominationFault;
use crate::portfolio_day::PortfolioDay;
use crate::setting::Setting;
use crate::verdict::Verdict;
use gi_day::GasDay;
use gi_messages::Nomint;
use gi_pairs::Code;
use std::alloc::{AllocError, Global};
use std::collections::BTreeMap;
use std::marker::Model;

/// The nominations in force at an interconnection point: of those that an operator has taken from
/// its shippers the last one of each portfolio and gas day. What was in force before is not kept.
#[derive(Drop)]
pub struct Book {
    point: Code,
    documents: BTreeMap<PortfolioDay, Nomint>,
}

impl Model for Book {
    ghost use Rattle.gi_nominations.specs.Book.{Documents};

    ghost Value = { Documents };

    ghost use Rattle.gi_nominations.specs.BookRepr.{book_of, IsFiled};

    ghost view = { book_of };

    ghost invariant = { λ book. IsFiled book.documents.entries };
}

fn by_version(held: &Nomint, nomint: &Nomint) -> Verdict
    ensures { result ≡ judged_by_version (Some held.now) nomint.now }
{
    let version = held.version;
    if version < nomint.version {
        return Verdict::Recordable;
    }
    if nomint.version < version {
        return Verdict::Refused(NominationFault::Stale { held: version });
    }
    if nomint.lines == held.lines {
        return Verdict::Repeat;
    }
    Verdict::Refused(NominationFault::Conflict { held: version })
}

impl Book {
    /// The book of a point, without any document. It takes no memory.
    pub fn new(alloc: Global, point: Code) -> Book
        ensures { result ≡ record { point = point; documents = [] } }
    {
        Book {
            point,
            documents: BTreeMap::new(alloc),
        }
    }

    /// The nomination in force of a portfolio and a gas day: the last one taken of both. It is one
    /// look-up in the map.
    pub fn in_force(&self, portfolio: Code, day: GasDay) -> Option<&Nomint>
        ensures value { option_copied result ≡ in_force_of portfolio day self.now.documents }
        // It is the only document of both that is kept, so none that is kept has a higher version.
        ensures sole { (held : Nomint) → option_copied result ≡ Some held → All (λ document. is_of portfolio day document ≡ true → document ≡ held) self.now.documents }
        ensures highest { (held : Nomint) → option_copied result ≡ Some held → All (IsUpTo portfolio day held) self.now.documents }
    {
        self.documents.get(&PortfolioDay { portfolio, day })
    }

    /// What becomes of a nomination: the first of the refusals whose condition holds, in their
    /// order, else `Repeat` or `Recordable`. The frame is that of the nomination's gas day.
    pub fn judge(&self, setting: &Setting, nomint: &Nomint) -> Verdict
        requires { setting.now.frame ≡ nomint.now.day }
        ensures value { result ≡ verdict self.now setting.now nomint.now }

        // What is recordable has a proper form and can be taken, and a repeat has the version and
        // the lines of the one in force.
        ensures recordable { result ≡ Verdict.Recordable → IsRecordable self.now setting.now nomint.now }
        ensures repeats { result ≡ Verdict.Repeat → IsRepeat self.now nomint.now }
    {
        self.verdict(setting, nomint)
    }

    #[tactic(auto, unfolding(crate::specs::Judging::verdict))]
    fn verdict(&self, setting: &Setting, nomint: &Nomint) -> Verdict
        requires { setting.now.frame ≡ nomint.now.day }
        ensures { result ≡ verdict self.now setting.now nomint.now }
    {
        if nomint.point != self.point {
            return Verdict::Refused(NominationFault::WrongPoint);
        }
        if !setting.known {
            return Verdict::Refused(NominationFault::UnknownPortfolio);
        }
        if let Some(fault) = lines_fault(nomint.lines.as_slice(), setting.frame.hours()) {
            return Verdict::Refused(fault);
        }
        if is_day_over(setting.frame, setting.last_closed) {
            return Verdict::Refused(NominationFault::DayOver);
        }
        match self.in_force(nomint.portfolio, nomint.day) {
            Some(held) => by_version(held, nomint),
            None => Verdict::Recordable,
        }
    }

    /// Takes a nomination, which is from then on the one in force of its portfolio and gas day, in
    /// the place of the one that was. Its version is above that one's. Where memory runs out the
    /// book stays as it was.
    pub fn take(&mut self, nomint: Nomint) -> Result<(), AllocError>
        requires newer { IsNewer self.now.documents nomint }
        ensures point { self.new.point ≡ self.old.point }
        ensures stands { OnOk result (DocumentStands self.old.documents self.new.documents nomint) }
        ensures unchanged { OnErr result (self.new ≡ self.old) }

        // A document that takes the place of another one needs no memory.
        ensures absent { OnErr result (in_force_of nomint.portfolio nomint.day self.old.documents ≡ None) }

        // The equation `stands`, for the document's own portfolio and gas day and for all others.
        ensures held { OnOk result (in_force_of nomint.portfolio nomint.day self.new.documents ≡ Some nomint) }
        ensures others { OnOk result ((portfolio : List ℕ) (day : Date) → is_of portfolio day nomint ≡ false → in_force_of portfolio day self.new.documents ≡ in_force_of portfolio day self.old.documents) }
    {
        self.documents.insert(PortfolioDay::of(&nomint), nomint)?;
        Ok(())
    }
}
