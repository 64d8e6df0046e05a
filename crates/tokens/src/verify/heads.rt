//! The heads of an object's signatures: the signatures for which HMACs are made (RFC 7515 section 5.2).
ghost use Rattle.std.specs.Prelude.{◌≡◌, ◌<◌, ◌≤◌, ◌∷◌, ◌++◌, [], true, length, map};
ghost use Rattle.keys.specs.Limits.{limits};
ghost use Rattle.objects.specs.Code.Views.{signature_view};
ghost use Rattle.tokens.specs.Code.Heads.{has_signature_len as has_len, is_alike as are_alike, is_covered as is_covered_by, covers, is_one_of as is_one, pointed_views, heads_view};

use crate::mac::Mac;
use keys::MOST_RECIPIENTS;
use objects::Signature;
use octets::same_octets;
use std::marker::Model;

/// At most `MOST_RECIPIENTS` signatures of an object. Contracts see the list of them.
#[derive(Drop)]
struct Chosen<'s> {
    list: [&'s Signature; MOST_RECIPIENTS],
    len: usize,
}

impl<'s> Model for Chosen<'s> {
    ghost use Rattle.std.specs.Prelude.{◌≤◌, List, map, take};
    ghost use Rattle.std.specs.Coded.{coded_list};
    ghost use Rattle.objects.specs.declared.jws.signature.Signature.{Signature};
    ghost use Rattle.objects.specs.contracts.jws.signature.Signature as signature;

    ghost Value = { List Signature };

    ghost view = { λ s. map (λ r. r.now) (take s.len s.list) };

    ghost invariant = { λ s. s.len ≤ 256 };

    ghost coded = { coded_list signature.the_row.coded };
}

impl<'s> Chosen<'s> {
    /// None. The array holds some signature until others are pushed.
    fn none(some: &'s Signature) -> Chosen<'s>
        ensures { result ≡ [] }
    {
        Chosen {
            list: [some; MOST_RECIPIENTS],
            len: 0,
        }
    }

    /// Adds a signature behind the others.
    fn push(&mut self, signature: &'s Signature)
        requires { length self.old < limits.recipients }
        ensures { self.new ≡ self.old ++ (signature.entry.now ∷ []) }
    {
        let len = self.len;
        let list = &mut self.list[..];
        list[len] = signature;
        self.len += 1;
    }

    /// The signatures, in order.
    fn list(&self) -> &[&'s Signature]
        ensures { map (λ s. s.now) result.now ≡ self.now }
    {
        &self.list[..self.len]
    }
}

/// The first signature of each algorithm and protected header whose length is that of its algorithm's HMAC. It takes no memory.
#[derive(Drop)]
pub(crate) struct Heads<'s> {
    chosen: Option<Chosen<'s>>,
}

impl<'s> Heads<'s> {
    /// The heads, in order.
    pub(crate) fn list(&self) -> &[&'s Signature]
        ensures { pointed_views result.now ≡ heads_view self.now }
    {
        match &self.chosen {
            None => &[],
            Some(chosen) => chosen.list(),
        }
    }
}

/// The heads of these signatures. Each of the signatures has a wrong length, and so verifies nothing, or is alike to a head.
pub(crate) fn heads_of(signatures: &[Signature]) -> Heads<'_>
    requires { length signatures.now ≤ limits.recipients }
    ensures { covers (heads_view result) (map signature_view signatures.now) ≡ true }
{
    match signatures.first() {
        None => Heads { chosen: None },
        Some(first) => Heads {
            chosen: Some(chosen_of(first, signatures)),
        },
    }
}

/// The signatures that are not covered by those before them.
fn chosen_of<'s>(first: &'s Signature, signatures: &'s [Signature]) -> Chosen<'s>
    requires { length signatures.now ≤ limits.recipients }
    ensures { covers (map signature_view result) (map signature_view signatures.now) ≡ true }
{
    let mut chosen = Chosen::none(first);
    for signature in signatures {
        if !is_covered(chosen.list(), signature) {
            chosen.push(signature);
        }
    }
    chosen
}

/// Whether the signature has a wrong length, and so verifies nothing, or is alike to one of the heads.
fn is_covered(heads: &[&Signature], signature: &Signature) -> bool
    ensures { result ≡ is_covered_by (pointed_views heads.now) (signature_view signature.now) }
{
    !has_signature_len(signature) || heads.iter().any(|head| is_alike(head, signature))
}

/// Whether the signature has the length of its algorithm's HMAC.
fn has_signature_len(signature: &Signature) -> bool
    ensures { result ≡ has_len (signature_view signature.now) }
{
    match signature.supported_alg() {
        None => false,
        Some(alg) => signature.signature().len() == alg.hash_len(),
    }
}

/// Whether both have the same algorithm and the same text of the protected header, and so the same HMAC under each key.
fn is_alike(head: &Signature, signature: &Signature) -> bool
    ensures { result ≡ are_alike (signature_view head.now) (signature_view signature.now) }
{
    same_octets(head.alg().as_bytes(), signature.alg().as_bytes())
        && same_octets(
            head.protected().as_bytes(),
            signature.protected().as_bytes(),
        )
}

/// Whether the HMAC is one of the signatures that are alike to the head. Octets are compared first, since texts may be long.
pub(crate) fn is_one_of(mac: &Mac, head: &Signature, signatures: &[Signature]) -> bool
    ensures { result ≡ is_one mac.now (signature_view head.now) (map signature_view signatures.now) }
{
    signatures.iter().any(|signature| same_octets(mac.octets(), signature.signature())
        && is_alike(head, signature))
}
