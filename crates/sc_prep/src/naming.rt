//! The headers that an `#include` names (C11 6.10.2).
ghost use Rattle.std.specs.Prelude.{◌≡◌, All, IfOk, OnOk, true};
ghost use Rattle.sc_base.specs.Seen.{IsHeld};
ghost use Rattle.sc_model.specs.Sets.{IsCond, Keeps};
ghost use Rattle.sc_prep.specs.Alternatives.{EachToken, OwnsEach};
ghost use Rattle.sc_prep.specs.Naming.{AddsHeader, AreHeaders, ArePlainNames, OwnsHeaders};
ghost use Rattle.sc_prep.specs.Printable.{is_plain};

use crate::alternatives::Alternative;
use sc_base::{Cond, Names, OutOfMemory};
use sc_include::{Header, IncludeStop, read_header};
use sc_presence::Conditions;
use std::alloc::Global;

/// A header that some configurations name.
#[derive(Drop)]
pub struct Named {
    pub cond: Cond,
    pub header: Header,
}

/// The headers that configurations name, and those that name none.
#[derive(Drop)]
pub struct Headers {
    pub named: Vec<Named>,
    pub unnamed: Cond,
}

impl Headers {
    /// What each of these lists of tokens names.
    #[tactic(auto, using(sc_model::proofs::SetLemmas::conditions))]
    pub fn read<C: Conditions>(
        alloc: Global,
        conds: &mut C,
        names: &Names,
        alternatives: &[Alternative],
    ) -> Result<Headers, OutOfMemory>
        requires own { OwnsEach (C.sets conds.old) alternatives.now }
        requires held { EachToken (IsHeld names.now) alternatives.now }
        ensures headers { IfOk result (AreHeaders (C.sets conds.old) names.now alternatives.now (C.sets conds.new)) }
        ensures plain { IfOk result (λ headers. EachToken (λ token. is_plain names.now token ≡ true) alternatives.now → ArePlainNames headers.named.items) }

        // at every outcome
        ensures keeps { Keeps (C.sets conds.old) (C.sets conds.new) }
    {
        let mut headers = Headers {
            named: Vec::new(alloc),
            unnamed: conds.never(),
        };
        for alternative in alternatives {
            headers.add(alloc, conds, names, alternative)?;
        }
        Ok(headers)
    }

    /// Adds what the tokens name.
    #[tactic(auto, using(sc_model::proofs::SetLemmas::conditions))]
    fn add<C: Conditions>(
        &mut self,
        alloc: Global,
        conds: &mut C,
        names: &Names,
        alternative: &Alternative,
    ) -> Result<(), OutOfMemory>
        requires owns { OwnsHeaders (C.sets conds.old) self.old }
        requires own { IsCond (C.sets conds.old) alternative.now.cond.0 }
        requires held { All (IsHeld names.now) alternative.now.tokens.items }
        ensures adds { OnOk result (AddsHeader (C.sets conds.old) names.now alternative.now self.old (C.sets conds.new) self.new) }
        ensures plain { OnOk result (All (λ token. is_plain names.now token ≡ true) alternative.now.tokens.items → ArePlainNames self.old.named.items
            → ArePlainNames self.new.named.items) }

        // at every outcome
        ensures keeps { Keeps (C.sets conds.old) (C.sets conds.new) }
    {
        let cond = alternative.cond;
        match read_header(alloc, &alternative.tokens, names) {
            Ok(header) => Ok(self.named.push(Named { cond, header })?),
            Err(IncludeStop::BadInclude) => {
                self.unnamed = conds.apply_or(self.unnamed, cond)?;
                Ok(())
            }
            Err(IncludeStop::OutOfMemory) => Err(OutOfMemory),
        }
    }
}
