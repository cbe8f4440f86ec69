// SPDX-License-Identifier: MIT
ghost use Rattle.std.specs.Prelude.{◌≡◌, ◌<◌, [], length, IfSome, IfNone};
ghost use Rattle.rrc_name.specs.Wire.{labels_of, IsWireForm, BeginsWith};

/// The first label of a name's wire form, and the wire form of the name behind it. The root has no
/// label.
pub fn first_label(wire: &[u8]) -> Option<(&[u8], &[u8])>
    requires { IsWireForm wire.now }
    ensures root { IfNone result (labels_of wire.now ≡ []) }
    ensures label { IfSome result (λ parts. BeginsWith wire.now parts.0.now parts.1.now) }
    ensures shorter { IfSome result (λ parts. length parts.1.now < length wire.now) }
{
    let size = usize::from(wire[0]);
    if size == 0 {
        return None;
    }
    Some(wire[1..].split_at(size))
}
