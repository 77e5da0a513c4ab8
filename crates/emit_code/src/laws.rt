//! What the code of a delivery does. Each body is empty: the contract is the law.

ghost use Rattle.emit_code.specs.Delivering.{DeliveryVisits, DeliveryIsShort, EmitterEmits};

/// If the entry of each subscriber carries out its item, the delivery of a handler visits all that follows from what it
/// emitted, in its order, and changes only what it may.
pub fn deliveries_visit()
    ensures visits { DeliveryVisits }
    ensures short { DeliveryIsShort }
{}

/// The emission of an emitter puts the message of its scratch words into its buffer, and changes nothing else.
pub fn emitters_emit()
    ensures { EmitterEmits }
{}
