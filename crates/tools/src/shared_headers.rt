//! The headers that all recipients of an object share.
ghost use Rattle.std.specs.Prelude.{◌≡◌, codes};
ghost use Rattle.std.specs.Result.{result_err};
ghost use Rattle.objects.specs.Code.Views.{part_view};
ghost use Rattle.tools.specs.Places.{octets_there, salt_there, shared_headers, shared_parameter};

use octets::Refusal;
use serde_json::{Map, Value};

/// The protected header and the shared unprotected header, and how their parameters are refused whose octets are read. So these are read
/// once, and not for each recipient.
#[derive(Clone, Copy)]
pub(crate) struct SharedHeaders<'m> {
    pub(crate) protected: Option<&'m Map<String, Value>>,
    pub(crate) unprotected: Option<&'m Map<String, Value>>,
    pub(crate) p2s: Option<Refusal>,
    pub(crate) iv: Option<Refusal>,
    pub(crate) tag: Option<Refusal>,
    ghost p2s_is_read: { p2s ≡ result_err (salt_there (shared_parameter (codes "p2s") (shared_headers (part_view protected) (part_view unprotected)))) },
    ghost iv_is_read: { iv ≡ result_err (octets_there (shared_parameter (codes "iv") (shared_headers (part_view protected) (part_view unprotected)))) },
    ghost tag_is_read: { tag ≡ result_err (octets_there (shared_parameter (codes "tag") (shared_headers (part_view protected) (part_view unprotected)))) },
}
