//! Resolution of methods (JVMS SE 8, 5.4.3.3 and 5.4.3.4). It takes no memory.

ghost use Rattle.std.specs.Prelude.{◌≡◌, ◌&&◌, ◌∷◌, [], filter, is_some, option_map, slice_get};
ghost use Rattle.std.specs.List.{list_any};
ghost use Rattle.jworld.specs.Above.{is_above};
ghost use Rattle.jworld.specs.Upwards.{upwards};
ghost use Rattle.jworld.specs.Fields.{first_found};
ghost use Rattle.jworld.specs.Members.{is_method, declared_method};
ghost use Rattle.jworld.specs.Methods.{inherited_method, concrete_method, declaring, is_most_specific, most_specific, only_one, interface_of, asked_first, resolved_method};

use crate::ids::{ClassId, MethodId};
use crate::world::World;
use jnames::MethodKey;

const OBJECT: ClassId = ClassId { n: 0 };

impl<'a> World<'a> {
    /// Whether a class declares a method that is inherited.
    fn is_declaring(&self, class: ClassId, key: &MethodKey) -> bool
        ensures { result ≡ is_some (inherited_method self.now key.now class.n) }
    {
        self.inherited_method(class, key).is_some()
    }

    /// The first superinterface that declares a method.
    fn first_declaring(&self, class: ClassId, key: &MethodKey) -> Option<ClassId>
        ensures { option_map (λ c. c.n) result ≡ slice_get (declaring self.now key.now class.n) 0 }
    {
        for n in self.superinterfaces(class) {
            let above = ClassId { n: *n };
            if self.is_declaring(above, key) {
                return Some(above);
            }
        }
        None
    }

    /// Whether a class declares a method and is below another.
    fn is_declaring_below(&self, below: ClassId, key: &MethodKey, above: ClassId) -> bool
        ensures { result ≡ (is_some (inherited_method self.now key.now below.n) && is_above self.now below.n above.n) }
    {
        self.is_above(below, above) && self.is_declaring(below, key)
    }

    /// Whether one of these classes declares a method and is below another.
    fn is_one_declaring_below(&self, classes: &[u32], key: &MethodKey, above: ClassId) -> bool
        ensures { result ≡ list_any (λ below. is_some (inherited_method self.now key.now below) && is_above self.now below above.n) classes.now }
    {
        classes
            .iter()
            .any(|n| self.is_declaring_below(ClassId { n: *n }, key, above))
    }

    /// Whether some superinterface that declares a method is below a class.
    fn is_declared_below(&self, class: ClassId, key: &MethodKey, above: ClassId) -> bool
        ensures { result ≡ list_any (λ below. is_above self.now below above.n) (declaring self.now key.now class.n) }
    {
        self.is_one_declaring_below(self.superinterfaces(class), key, above)
    }

    /// Whether a superinterface declares a method that isn't abstract, and none below it declares one.
    fn is_candidate(&self, class: ClassId, key: &MethodKey, above: ClassId) -> bool
        ensures { result ≡ (is_some (inherited_method self.now key.now above.n) && is_most_specific self.now key.now class.n above.n && is_some (concrete_method self.now key.now above.n)) }
    {
        self.is_declaring(above, key)
            && self.concrete_method(above, key).is_some()
            && !self.is_declared_below(class, key, above)
    }

    /// The maximally specific superinterface whose method isn't abstract, if there is exactly one.
    fn only_most_specific(&self, class: ClassId, key: &MethodKey) -> Option<ClassId>
        ensures { option_map (λ c. c.n) result ≡ only_one (filter (λ above. is_some (concrete_method self.now key.now above)) (most_specific self.now key.now class.n)) }
    {
        let mut found = None;
        for n in self.superinterfaces(class) {
            let above = ClassId { n: *n };
            if self.is_candidate(class, key, above) {
                if found.is_some() {
                    return None;
                }
                found = Some(above);
            }
        }
        found
    }

    /// The superinterface in which a method is found.
    fn interface_of(&self, class: ClassId, key: &MethodKey) -> Option<ClassId>
        ensures { option_map (λ c. c.n) result ≡ interface_of self.now key.now class.n }
    {
        let only = self.only_most_specific(class, key);
        if only.is_some() {
            return only;
        }
        self.first_declaring(class, key)
    }

    /// The method that a class or the first of its superclasses declares.
    fn declared_upwards(&self, class: ClassId, key: &MethodKey) -> Option<MethodId>
        ensures { result ≡ first_found (declared_method self.now (is_method key.now)) (upwards self.now class.n) }
    {
        let mut next = Some(class);
        for _step in 0..self.count() {
            let class = next?;
            let found = self.declared_method(class, key);
            if found.is_some() {
                return found;
            }
            next = self.super_of(class);
        }
        None
    }

    /// The method that an interface or Object declares.
    fn declared_in_interface(&self, class: ClassId, key: &MethodKey) -> Option<MethodId>
        ensures { result ≡ first_found (declared_method self.now (is_method key.now)) (class.n ∷ 0 ∷ []) }
    {
        let found = self.declared_method(class, key);
        if found.is_some() {
            return found;
        }
        self.declared_method(OBJECT, key)
    }

    /// The method that is found before the superinterfaces are asked.
    fn declared_first(&self, class: ClassId, key: &MethodKey) -> Option<MethodId>
        ensures { result ≡ first_found (declared_method self.now (is_method key.now)) (asked_first self.now class.n) }
    {
        if self.is_interface(class) {
            self.declared_in_interface(class, key)
        } else {
            self.declared_upwards(class, key)
        }
    }

    /// The method that a name and a descriptor name in a class: the first from the class upwards, in an interface
    /// its own or else Object's; else that of the one maximally specific superinterface whose method isn't
    /// abstract, and else that of the first superinterface which declares one, where the standard leaves the
    /// choice open. Access is not looked at.
    pub fn resolve_method(&self, class: ClassId, key: &MethodKey) -> Option<MethodId>
        ensures { result ≡ resolved_method self.now key.now class.n }
    {
        let declared = self.declared_first(class, key);
        if declared.is_some() {
            return declared;
        }
        let above = self.interface_of(class, key)?;
        self.inherited_method(above, key)
    }
}
