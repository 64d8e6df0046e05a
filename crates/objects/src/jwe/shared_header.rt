//! The headers that all recipients of an object share, and their joint headers (RFC 7516 section 4).
ghost use Rattle.std.specs.Prelude.{◌≡◌, IfOk, IfErr};
ghost use Rattle.serde_json.specs.View.{members_view};
ghost use Rattle.octets.specs.Code.Results.{Agrees};
ghost use Rattle.objects.specs.Headers.{joint_header};
ghost use Rattle.objects.specs.Code.SharedParameters.{AreReadIn, IsReadFrom};
ghost use Rattle.objects.specs.Code.Views.{header_view};

use crate::Header;
use crate::header::parts_overlap;
use crate::header::shared::SharedParameters;
use octets::{Refusal, needs};
use serde_json::{Map, Value};
use std::alloc::Global;

/// What is known of the headers that all recipients share, so that it is judged and read once for all of them.
#[derive(Drop)]
pub(crate) struct SharedHeader {
    /// No name is in both headers.
    are_disjoint: bool,
    pub(crate) parameters: SharedParameters,
}

impl SharedHeader {
    /// What is known of these headers. Fails only with `Memory`.
    pub(crate) fn read<'m>(
        alloc: Global,
        protected: &'m Map<String, Value>,
        unprotected: &'m Map<String, Value>,
    ) -> Result<SharedHeader, Refusal>
        ensures read { IfOk result (IsReadFrom (members_view protected.entry.now.entries) (members_view unprotected.entry.now.entries)) }
        ensures memory { IfErr result (λ e. e ≡ Refusal.Memory) }
    {
        let header = Header {
            protected: Some(protected),
            unprotected: Some(unprotected),
            per_recipient: None,
        };
        Ok(SharedHeader {
            are_disjoint: !parts_overlap(Some(protected), Some(unprotected)),
            parameters: SharedParameters::read(alloc, header)?,
        })
    }

    /// The joint header of a recipient. Refuses with `Header` if a name is in two headers.
    #[tactic(auto, unfolding(crate::specs::Headers::joint_header), using(crate::proofs::Names::overlap_swapped))]
    pub(crate) fn joint<'m>(
        &self,
        protected: &'m Map<String, Value>,
        unprotected: &'m Map<String, Value>,
        per_recipient: &'m Map<String, Value>,
    ) -> Result<Header<'m>, Refusal>
        requires { IsReadFrom (members_view protected.now.entries) (members_view unprotected.now.entries) self.now }
        ensures exact { Agrees header_view result
            (joint_header (members_view protected.entry.now.entries) (members_view unprotected.entry.now.entries)
            (members_view per_recipient.entry.now.entries)) }
        ensures read { IfOk result (λ header. AreReadIn (header_view header) self.now.parameters) }
    {
        let overlaps = parts_overlap(Some(per_recipient), Some(protected))
            || parts_overlap(Some(per_recipient), Some(unprotected));
        needs(self.are_disjoint && !overlaps, Refusal::Header)?;
        Ok(Header {
            protected: Some(protected),
            unprotected: Some(unprotected),
            per_recipient: Some(per_recipient),
        })
    }
}
