//! Laws of the definitions, as contracts of functions that do nothing.
ghost use Rattle.objects.specs.CompactForm.{JweCompactFormIsExact, JwsCompactFormIsExact};
ghost use Rattle.objects.specs.HandedIn.{PayloadIsHandedIn};
ghost use Rattle.objects.specs.Headers.{JointHeaderHasAllMembers};
ghost use Rattle.objects.specs.Jwe as jwe;
ghost use Rattle.objects.specs.Jws as jws;

/// A joint header, whose parts have no name in common, has the members of each part and no others.
pub fn joint_header_has_all_members()
    ensures { JointHeaderHasAllMembers }
{}

/// Making a signed object of members is the same as reading their JSON text.
pub fn jws_building_is_reading()
    ensures { jws.BuildingIsReading }
{}

/// The JSON text of a signed object's members is the compact text of the value that it reads as.
pub fn jws_json_texts_are_compact()
    ensures { jws.JsonTextsAreCompact }
{}

/// The JSON text of a signed object that is made of its members reads as this object, and so does its compact text, if it has one.
pub fn jws_texts_spell_objects()
    ensures { jws.TextsSpellObjects }
{}

/// A signed object that is read can be made of its members.
pub fn jws_objects_are_made()
    ensures { jws.ObjectsAreMade }
{}

/// A compact text of a signed object that is read is the compact text of this object, except for a line end.
pub fn jws_compact_texts_are_exact()
    ensures { jws.CompactTextsAreExact }
{}

/// A signed object has a compact text exactly if it has one signature and no unprotected header. The text is then its three parts, joined
/// by dots. Every other object is refused with `NotCompact`.
pub fn jws_compact_form_is_exact()
    ensures { JwsCompactFormIsExact }
{}

/// A text of a signed object is read with a detached payload as it is with an empty one, except for the payload.
pub fn jws_payload_is_handed_in()
    ensures { PayloadIsHandedIn }
{}

/// Making an encrypted object of members is the same as reading their JSON text.
pub fn jwe_building_is_reading()
    ensures { jwe.BuildingIsReading }
{}

/// The JSON text of an encrypted object's members is the compact text of the value that it reads as.
pub fn jwe_json_texts_are_compact()
    ensures { jwe.JsonTextsAreCompact }
{}

/// The JSON text of an encrypted object that is made of its members reads as this object, and so does its compact text, if it has one.
pub fn jwe_texts_spell_objects()
    ensures { jwe.TextsSpellObjects }
{}

/// An encrypted object that is read can be made of its members.
pub fn jwe_objects_are_made()
    ensures { jwe.ObjectsAreMade }
{}

/// A compact text of an encrypted object that is read is the compact text of this object, except for a line end.
pub fn jwe_compact_texts_are_exact()
    ensures { jwe.CompactTextsAreExact }
{}

/// An encrypted object has a compact text exactly if it has one recipient, only a protected header and no additional data. The text is then
/// its five parts, joined by dots. Every other object is refused with `NotCompact`.
pub fn jwe_compact_form_is_exact()
    ensures { JweCompactFormIsExact }
{}
