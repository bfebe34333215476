//! What index fields are to name (JVMS SE 8, 4.4 to 4.7).

ghost use Rattle.std.specs.Prelude.{◌≡◌};
ghost use Rattle.classfile.specs.Pool.{text, entry_of};
ghost use Rattle.jnames.specs.Descriptors.{method_slots};
ghost use Rattle.classfile.specs.Faults.{slots_fit, text_fits, text_fault, type_fits, type_fault, type_indices, is_wanted, entry_fault, index_fault};

use crate::pool::{Entry, Pool};
use crate::text::Text;
use crate::uses::Wanted;
use kes_text::Kind;

const MAX_SLOTS: u16 = 255;

/// Whether a method descriptor's parameters take at most 254 slots, and so one is left for `this`.
fn has_slot_for_this(text: &Text<'_>) -> bool
    ensures { result ≡ slots_fit 1 (method_slots text.now) }
{
    match text.method_slots() {
        Some(slots) => slots < MAX_SLOTS,
        None => false,
    }
}

/// Whether a text is the descriptor that is wanted, if one is.
fn text_fits(wanted: Wanted, text: &Text<'_>) -> bool
    ensures { result ≡ text_fits wanted text.now }
{
    match wanted {
        Wanted::ClassText => !text.begins_with(b'[') || text.is_field_descriptor(),
        Wanted::FieldText => text.is_field_descriptor(),
        Wanted::MethodText => text.method_slots().is_some(),
        Wanted::InstanceText => has_slot_for_this(text),
        Wanted::AnyText => text.is_field_descriptor() || text.method_slots().is_some(),
        _ => true,
    }
}

fn text_fault(pool: &Pool<'_>, wanted: Wanted, index: u16) -> Option<Kind>
    ensures { result ≡ text_fault wanted (text pool.now index) }
{
    match pool.text(index) {
        Some(text) if text_fits(wanted, text) => None,
        Some(_) => Some(Kind::BadDescriptor),
        None => Some(Kind::PoolIndex),
    }
}

/// Whether the descriptor of a NameAndType isn't of the other kind.
fn type_fits(pool: &Pool<'_>, of_method: bool, descriptor: u16) -> bool
    ensures { result ≡ type_fits of_method (text pool.now descriptor) }
{
    match pool.text(descriptor) {
        Some(text) if of_method => !text.is_field_descriptor(),
        Some(text) => text.method_slots().is_none(),
        None => true,
    }
}

fn type_fault(pool: &Pool<'_>, of_method: bool, index: u16) -> Option<Kind>
    ensures { result ≡ type_fault of_method pool.now (type_indices (entry_of pool.now index)) }
{
    match pool.entry(index) {
        Some(Entry::NameAndType { descriptor, .. }) => {
            if type_fits(pool, of_method, *descriptor) {
                None
            } else {
                Some(Kind::BadDescriptor)
            }
        }
        _ => Some(Kind::PoolIndex),
    }
}

/// Whether an entry is of the kind that is wanted.
fn is_wanted(wanted: Wanted, entry: &Entry<'_>) -> bool
    ensures { result ≡ is_wanted wanted entry.now }
{
    match wanted {
        Wanted::Class => matches!(entry, Entry::Class { .. }),
        Wanted::Constant => matches!(
            entry,
            Entry::Integer(_) | Entry::Float | Entry::Long(_) | Entry::Double | Entry::String
        ),
        Wanted::Fieldref => matches!(entry, Entry::Fieldref { .. }),
        Wanted::Methodref => matches!(entry, Entry::Methodref { .. }),
        Wanted::InterfaceMethodref => matches!(entry, Entry::InterfaceMethodref { .. }),
        Wanted::AnyMethodref => {
            matches!(
                entry,
                Entry::Methodref { .. } | Entry::InterfaceMethodref { .. }
            )
        }
        _ => false,
    }
}

fn entry_fault(pool: &Pool<'_>, wanted: Wanted, index: u16) -> Option<Kind>
    ensures { result ≡ entry_fault wanted (entry_of pool.now index) }
{
    match pool.entry(index) {
        Some(entry) if is_wanted(wanted, entry) => None,
        _ => Some(Kind::PoolIndex),
    }
}

/// What is wrong with an index field.
pub fn index_fault(pool: &Pool<'_>, wanted: Wanted, index: u16) -> Option<Kind>
    ensures { result ≡ index_fault pool.now wanted index }
{
    match wanted {
        Wanted::Text
        | Wanted::ClassText
        | Wanted::FieldText
        | Wanted::MethodText
        | Wanted::InstanceText
        | Wanted::AnyText => text_fault(pool, wanted, index),
        Wanted::FieldType => type_fault(pool, false, index),
        Wanted::MethodType => type_fault(pool, true, index),
        Wanted::Class
        | Wanted::Constant
        | Wanted::Fieldref
        | Wanted::Methodref
        | Wanted::InterfaceMethodref
        | Wanted::AnyMethodref
        | Wanted::Nothing => entry_fault(pool, wanted, index),
    }
}
