//! The two methods of a class of the first form (JVMS 4.6).

ghost use Rattle.std.specs.Prelude.{◌≡◌, option_map};
ghost use Rattle.first_form.specs.Methods.{is_set, is_plain_static, is_special_name, is_plain, is_native, is_entry, native_and_entry};

use classfile::{Access, Method};

pub fn is_set(flags: Access, flag: Access) -> bool
    ensures { result ≡ is_set flags.bits flag.bits }
{
    flags.bits & flag.bits != 0
}

fn is_plain_static(flags: Access) -> bool
    ensures { result ≡ is_plain_static flags.bits }
{
    is_set(flags, Access::STATIC)
        && !is_set(flags, Access::SYNCHRONIZED)
        && !is_set(flags, Access::ABSTRACT)
}

fn is_special_name(name: &[u8]) -> bool
    ensures { result ≡ is_special_name name.now }
{
    name == b"<init>".as_slice() || name == b"<clinit>".as_slice()
}

fn is_plain(method: &Method<'_>) -> bool
    ensures { result ≡ is_plain method.now }
{
    is_plain_static(method.flags) && !is_special_name(method.name)
}

fn is_native(method: &Method<'_>) -> bool
    ensures { result ≡ is_native method.now }
{
    is_plain(method)
        && is_set(method.flags, Access::NATIVE)
        && method.descriptor == b"()I".as_slice()
}

fn is_entry(method: &Method<'_>) -> bool
    ensures { result ≡ is_entry method.now }
{
    is_plain(method)
        && !is_set(method.flags, Access::NATIVE)
        && method.descriptor == b"()V".as_slice()
}

/// Which of two methods is the native one and which is the entry, in this order.
pub fn native_and_entry<'m, 'a>(
    methods: &'m [Method<'a>],
) -> Option<(&'m Method<'a>, &'m Method<'a>)>
    ensures { option_map (λ x. (x.0.now, x.1.now)) result ≡ native_and_entry methods.now }
{
    let [first, second] = methods else {
        return None;
    };
    if is_native(first) && is_entry(second) {
        Some((first, second))
    } else if is_native(second) && is_entry(first) {
        Some((second, first))
    } else {
        None
    }
}
