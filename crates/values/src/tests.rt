use super::*;
use jnames::Shape;

#[test]
fn fields_keep_what_fits(rt: HostRuntime) {
    assert_eq!(rt; kept(Shape::Bool, Value::Int(-2)), Value::Int(0));
    assert_eq!(rt; kept(Shape::Byte, Value::Int(200)), Value::Int(-56));
    assert_eq!(rt; kept(Shape::Char, Value::Int(-1)), Value::Int(65535));
    assert_eq!(rt; kept(Shape::Short, Value::Int(40000)), Value::Int(-25536));
    assert_eq!(rt; kept(Shape::Int, Value::Int(-5)), Value::Int(-5));
    assert_eq!(rt; kept(Shape::Class, Value::Object(3)), Value::Object(3));
    assert_eq!(rt; zero(Shape::Long), Value::Long(0));
    assert_eq!(rt; zero(Shape::Array), Value::Null);
}
