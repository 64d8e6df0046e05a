//! What is written of the deliveries of a content encryption key: the header parameters of key management (RFC 7518 section 4), and the
//! recipients of an object (RFC 7516 section 7.2.1).
ghost use Rattle.std.specs.Prelude.{◌≡◌, ℕ, List, false, map, IfOk, IfErr};
ghost use Rattle.serde_json.specs.Data.{string, put};
ghost use Rattle.serde_json.specs.View.{members_view};
ghost use Rattle.serde_json.specs.Written.{members_have_float};
ghost use Rattle.octets.specs.Base64url.{base64url};
ghost use Rattle.objects.specs.Code.KeyManagementView.{management_view};
ghost use Rattle.objects.specs.Code.Views.{made_recipient_view};
ghost use Rattle.tokens.specs.Choosing.{with_p2c};
ghost use Rattle.tokens.specs.Encrypting.{with_management, with_parameters, protected_header, per_recipient_header};
ghost use Rattle.tokens.specs.Code.SealedTexts.{made_recipient};
ghost use Rattle.tokens.specs.Code.Views.{given_view, delivery_view};

use crate::encrypt::deliver::Delivery;
use crate::encrypt::plan::Given;
use crate::headers::with_name;
use objects::{KeyManagement, MadeRecipient, RecipientParts};
use octets::{Refusal, b64_encode};
use serde_json::{Map, Value};
use std::alloc::{AllocError, Global};

/// The protected header, with what is written of the first delivery if it is the only one.
pub(crate) fn protected_header(
    alloc: Global,
    given: Given,
    alone: bool,
    deliveries: &[Delivery],
    header: Map<String, Value>,
) -> Result<Map<String, Value>, Refusal>
    ensures members { IfOk result (λ made. members_view made.entries
        ≡ protected_header (given_view given) alone (map delivery_view deliveries.now) (members_view header.entries)) }
    ensures no_float { IfOk result (λ made. members_have_float (members_view header.entries) ≡ false
        → members_have_float (members_view made.entries) ≡ false) }
    ensures memory { IfErr result (λ e. e ≡ Refusal.Memory) }
{
    match deliveries.first() {
        Some(delivery) if alone => with_parameters(alloc, given, delivery, header),
        _ => Ok(header),
    }
}

/// The recipients of the deliveries, by whether there is only one.
pub(crate) fn recipients(
    alloc: Global,
    given: Given,
    alone: bool,
    deliveries: Vec<Delivery>,
) -> Result<Vec<MadeRecipient>, Refusal>
    ensures recipients { IfOk result (λ list. (enc : List ℕ) → map (made_recipient_view enc) list.items
        ≡ map (made_recipient (given_view given) alone enc) (map delivery_view deliveries.items)) }
    ensures memory { IfErr result (λ e. e ≡ Refusal.Memory) }
{
    let mut list = Vec::new(alloc);
    for delivery in deliveries {
        list.push(recipient(alloc, given, alone, delivery)?)?;
    }
    Ok(list)
}

/// The recipient of a delivery.
fn recipient(
    alloc: Global,
    given: Given,
    alone: bool,
    delivery: Delivery,
) -> Result<MadeRecipient, Refusal>
    ensures recipient { IfOk result (λ made. (enc : List ℕ)
        → made_recipient_view enc made ≡ made_recipient (given_view given) alone enc (delivery_view delivery)) }
    ensures memory { IfErr result (λ e. e ≡ Refusal.Memory) }
{
    let header = per_recipient_header(alloc, given, alone, &delivery)?;
    let Delivery {
        alg,
        management,
        encrypted_key,
    } = delivery;
    Ok(MadeRecipient {
        parts: RecipientParts {
            header,
            encrypted_key,
        },
        alg,
        management,
    })
}

/// The header of a recipient, with what is written of its delivery if it is not the only one.
fn per_recipient_header(
    alloc: Global,
    given: Given,
    alone: bool,
    delivery: &Delivery,
) -> Result<Map<String, Value>, Refusal>
    ensures members { IfOk result (λ made. members_view made.entries ≡ per_recipient_header (given_view given) alone (delivery_view delivery.now)) }
    ensures no_float { IfOk result (λ made. members_have_float (members_view made.entries) ≡ false) }
    ensures memory { IfErr result (λ e. e ≡ Refusal.Memory) }
{
    let header = Map::new(alloc);
    if alone {
        return Ok(header);
    }
    with_parameters(alloc, given, delivery, header)
}

/// The header with the algorithm's name and the parameters of a delivery, unless the template has them.
fn with_parameters(
    alloc: Global,
    given: Given,
    delivery: &Delivery,
    header: Map<String, Value>,
) -> Result<Map<String, Value>, Refusal>
    ensures members { IfOk result (λ made. members_view made.entries
        ≡ with_parameters (given_view given) (delivery_view delivery.now) (members_view header.entries)) }
    ensures no_float { IfOk result (λ made. members_have_float (members_view header.entries) ≡ false
        → members_have_float (members_view made.entries) ≡ false) }
    ensures memory { IfErr result (λ e. e ≡ Refusal.Memory) }
{
    let header = with_name(alloc, given.alg, "alg", delivery.alg.name(), header)?;
    with_management(alloc, given.p2c, &delivery.management, header)
}

/// The header with the parameters of key management, except the iterations if the template has them (RFC 7518 sections 4.7.1 and 4.8.1).
fn with_management(
    alloc: Global,
    given: bool,
    management: &KeyManagement,
    header: Map<String, Value>,
) -> Result<Map<String, Value>, Refusal>
    ensures members { IfOk result (λ made. members_view made.entries
        ≡ with_management given (management_view management.now) (members_view header.entries)) }
    ensures no_float { IfOk result (λ made. members_have_float (members_view header.entries) ≡ false
        → members_have_float (members_view made.entries) ≡ false) }
    ensures memory { IfErr result (λ e. e ≡ Refusal.Memory) }
{
    match management {
        KeyManagement::Unknown | KeyManagement::Direct | KeyManagement::KeyWrap => Ok(header),
        KeyManagement::Password { p2s, p2c } => {
            let header = with_p2c(alloc, given, *p2c, header)?;
            with_octets(alloc, "p2s", p2s.octets(), header)
        }
        KeyManagement::GcmKeyWrap { iv, tag } => {
            let header = with_octets(alloc, "iv", iv.octets(), header)?;
            with_octets(alloc, "tag", tag.octets(), header)
        }
    }
}

/// The header with the iterations, unless the template has them.
#[tactic(auto, using(keys::proofs::Lemmas::no_float_put_in))]
fn with_p2c(
    alloc: Global,
    given: bool,
    p2c: u64,
    mut header: Map<String, Value>,
) -> Result<Map<String, Value>, AllocError>
    ensures members { IfOk result (λ made. members_view made.entries ≡ with_p2c given p2c (members_view header.entries)) }
    ensures no_float { IfOk result (λ made. members_have_float (members_view header.entries) ≡ false
        → members_have_float (members_view made.entries) ≡ false) }
{
    if !given {
        serde_json::put(&mut header, alloc, "p2c", Value::from(p2c))?;
    }
    Ok(header)
}

/// The header with a parameter whose value is the base64url text of octets.
#[tactic(auto, using(keys::proofs::Lemmas::no_float_put_in))]
fn with_octets(
    alloc: Global,
    parameter: &str,
    octets: &[u8],
    mut header: Map<String, Value>,
) -> Result<Map<String, Value>, Refusal>
    ensures members { IfOk result (λ made. members_view made.entries ≡ put parameter.now (string (base64url octets.now)) (members_view header.entries)) }
    ensures no_float { IfOk result (λ made. members_have_float (members_view header.entries) ≡ false
        → members_have_float (members_view made.entries) ≡ false) }
    ensures memory { IfErr result (λ e. e ≡ Refusal.Memory) }
{
    let text = b64_encode(alloc, octets)?;
    serde_json::put(&mut header, alloc, parameter, Value::from(text))?;
    Ok(header)
}
