//! A domain's objects.

ghost use Rattle.std.specs.Prelude.{◌≡◌, ◌≤◌, ◌<◌, ◌^◌, [], option_map, slice_get, IfNone, IfSome};
ghost use Rattle.std.specs.Option.{option_copied};
ghost use Rattle.b_heap.specs.Objects.{rounded, object_cost, array_cost};
ghost use Rattle.b_heap.specs.Heap.{instance_of, array_of, allocated, Allocates, instance_at, instance_place, field_value, with_field, array_at, length_of, item_value, with_item, with_put};

use crate::fault::HeapFail;
use crate::fields::Fields;
use crate::kind::Kind;
use crate::object::{Object, item_shape};
use crate::places::Place;
use jnames::{Param, Shape, width};
use jworld::{ClassId, FieldId};
use std::alloc::Global;
use std::marker::Model;
use values::{Value, kept};

/// The objects of a domain, by their places in a list, and how many bytes are left for more. Nothing is taken back.
#[derive(Drop)]
pub struct Heap {
    left: u32,
    objects: Vec<Object>,
}

impl Model for Heap {
    ghost use Rattle.std.specs.Prelude.{◌+◌, ◌<◌, ◌^◌, length};
    ghost use Rattle.b_heap.specs.Heap.{HeapInfo};

    ghost Value = { HeapInfo };

    ghost view = { λ h. record { left = h.left; objects = h.objects.items } };

    ghost invariant = { λ h. length h.objects.items + h.left < 2 ^ 32 };
}

/// How many bytes an array takes: 8, and its items, rounded up to 8.
#[tactic(auto, unfolding(crate::specs::Objects::array_cost))]
fn array_cost(shape: Shape, length: u32) -> u64
    ensures value { result ≡ array_cost shape length }
    ensures some { 0 < result }
{
    let items = u64::from(length) * u64::from(width(shape));
    8 + (items + 7) / 8 * 8
}

/// Where an instance field stands.
fn instance_place(fields: &Fields<'_>, field: FieldId) -> Option<Place>
    ensures { result ≡ instance_place fields.now field }
{
    let place = fields.place(field)?;
    if place.is_static { None } else { Some(place) }
}

impl Heap {
    /// A heap of so many bytes, with no object.
    pub fn new(alloc: Global, limit: u32) -> Heap
        ensures { result ≡ record { left = limit; objects = [] } }
    {
        Heap {
            left: limit,
            objects: Vec::new(alloc),
        }
    }

    /// How many bytes are left.
    pub fn left(&self) -> u32
        ensures { result ≡ self.now.left }
    {
        self.left
    }

    /// Puts an object behind the others.
    #[tactic(auto, unfolding(crate::specs::Heap::allocated))]
    fn append(&mut self, cost: u32, object: Object) -> Result<u32, HeapFail>
        requires some { 0 < cost }
        requires room { cost ≤ self.old.left }
        ensures { Allocates (allocated self.old cost object) self.old self.new result }
    {
        let place = self.objects.len() as u32;
        if self.objects.push(object).is_err() {
            return Err(HeapFail::NoMemory);
        }
        self.left -= cost;
        Ok(place)
    }

    /// The place of a new object of a class, whose fields are zero. HeapFull comes exactly where its cost is above
    /// what is left; then, and without memory, the heap is as it was.
    #[tactic(auto, unfolding(crate::specs::Heap::allocated, crate::specs::Objects::object_cost))]
    pub fn object(
        &mut self,
        alloc: Global,
        fields: &Fields<'_>,
        class: ClassId,
    ) -> Result<u32, HeapFail>
        ensures { Allocates (allocated self.old (object_cost fields.now class.n) (instance_of fields.now class.n)) self.old self.new result }
    {
        let cost = fields.cost(class);
        if cost > self.left {
            return Err(HeapFail::HeapFull);
        }
        let object = Object::instance(class, fields.zeros(alloc, class)?);
        self.append(cost, object)
    }

    /// The place of a new array of items of a type, which are zero. HeapFull comes exactly where its cost is above
    /// what is left; then, and without memory, the heap is as it was.
    #[tactic(auto, unfolding(crate::specs::Heap::allocated))]
    pub fn array(&mut self, alloc: Global, element: &Param, length: u32) -> Result<u32, HeapFail>
        requires { length < 2 ^ 31 }
        ensures { Allocates (allocated self.old (array_cost element.now.shape length) (array_of element.now length)) self.old self.new result }
    {
        let cost = array_cost(element.shape, length);
        if cost > u64::from(self.left) {
            return Err(HeapFail::HeapFull);
        }
        let object = Object::array(alloc, element, length)?;
        self.append(cost as u32, object)
    }

    /// What an object is. None exactly where there is none of the place.
    pub fn kind(&self, object: u32) -> Option<&Kind>
        ensures { option_copied result ≡ option_map (λ o. o.kind) (slice_get self.now.objects object) }
    {
        let found = self.objects.get(object as usize)?;
        Some(found.kind())
    }

    /// An instance of a class.
    fn instance(&self, object: u32) -> Option<&Object>
        ensures { option_copied result ≡ instance_at self.now object }
    {
        let found = self.objects.get(object as usize)?;
        match found.kind() {
            Kind::Instance(_) => Some(found),
            Kind::Array(_) => None,
        }
    }

    /// An array, and the shape of its items.
    fn array_at(&self, array: u32) -> Option<(&Object, Shape)>
        ensures { option_map (λ x. (x.0.now, x.1)) result ≡ array_at self.now array }
    {
        let found = self.objects.get(array as usize)?;
        let shape = item_shape(found.kind())?;
        Some((found, shape))
    }

    /// Puts a value at a place of an object.
    fn put(&mut self, object: u32, place: u32, value: Value) -> Option<()>
        ensures put { option_map (λ _. self.new) result ≡ with_put self.old object place value }
        ensures none { IfNone result (self.new ≡ self.old) }
    {
        let at = object as usize;
        if at >= self.objects.len() {
            return None;
        }
        let found = &mut self.objects[at];
        found.put(place, value)
    }

    /// The value of an instance field. None exactly where the place is that of no instance, or it has no such field.
    #[tactic(auto, unfolding(crate::specs::Heap::field_value))]
    pub fn get_field(&self, fields: &Fields<'_>, object: u32, field: FieldId) -> Option<Value>
        ensures { result ≡ field_value fields.now self.now object field }
    {
        let found = self.instance(object)?;
        let place = instance_place(fields, field)?;
        found.get(place.at)
    }

    /// Stores a value in an instance field, which keeps of it what its type holds. None exactly where the place is
    /// that of no instance, or it has no such field; then the heap is as it was.
    #[tactic(auto, unfolding(crate::specs::Heap::with_field))]
    pub fn set_field(
        &mut self,
        fields: &Fields<'_>,
        object: u32,
        field: FieldId,
        value: Value,
    ) -> Option<()>
        ensures set { option_map (λ _. self.new) result ≡ with_field fields.now self.old object field value }
        ensures none { IfNone result (self.new ≡ self.old) }
    {
        let _found = self.instance(object)?;
        let place = instance_place(fields, field)?;
        self.put(object, place.at, kept(place.shape, value))
    }

    /// How many items an array has. None exactly where the place is that of no array.
    #[tactic(auto, unfolding(crate::specs::Heap::length_of))]
    pub fn length(&self, array: u32) -> Option<u32>
        ensures value { result ≡ length_of self.now array }
        ensures few { IfSome result (λ length. length < 2 ^ 31) }
    {
        let (found, _shape) = self.array_at(array)?;
        Some(found.len())
    }

    /// An item of an array. None exactly where the place is that of no array, or it has no such item.
    #[tactic(auto, unfolding(crate::specs::Heap::item_value))]
    pub fn get_item(&self, array: u32, index: u32) -> Option<Value>
        ensures { result ≡ item_value self.now array index }
    {
        let (found, _shape) = self.array_at(array)?;
        found.get(index)
    }

    /// Stores a value in an item of an array, which keeps of it what its type holds. None exactly where the place is
    /// that of no array, or it has no such item; then the heap is as it was.
    #[tactic(auto, unfolding(crate::specs::Heap::with_item))]
    pub fn set_item(&mut self, array: u32, index: u32, value: Value) -> Option<()>
        ensures set { option_map (λ _. self.new) result ≡ with_item self.old array index value }
        ensures none { IfNone result (self.new ≡ self.old) }
    {
        let (_found, shape) = self.array_at(array)?;
        self.put(array, index, kept(shape, value))
    }
}
