//! The table of operator classes.

use gx_value::{
    BadParameter, Class, ClassFault, ColumnType, Method, OperandType, Operator, class_for,
    parameter_for, supports,
};

/// A method, a column, the name of a class if one is given, and the class.
const CLASSES: [(
    Method,
    ColumnType,
    Option<&'static str>,
    Result<Class, ClassFault>,
); 16] = [
    (Method::Gist, ColumnType::Int4, None, Ok(Class::GistInt4)),
    (
        Method::Gist,
        ColumnType::Uuid,
        Some("gist_uuid_ops"),
        Ok(Class::GistUuid),
    ),
    (
        Method::Gist,
        ColumnType::DateRange,
        None,
        Ok(Class::RangeOps),
    ),
    (
        Method::Gist,
        ColumnType::Inet,
        None,
        Err(ClassFault::NoDefault),
    ),
    (
        Method::Gist,
        ColumnType::Inet,
        Some("inet_ops"),
        Ok(Class::InetOps),
    ),
    (
        Method::Gist,
        ColumnType::Int4Array,
        None,
        Ok(Class::GistInt),
    ),
    (
        Method::Gist,
        ColumnType::Int4Array,
        Some("gist__intbig_ops"),
        Ok(Class::GistIntbig),
    ),
    (
        Method::Gin,
        ColumnType::Int4Array,
        None,
        Ok(Class::ArrayOps),
    ),
    (
        Method::Gin,
        ColumnType::Int4Array,
        Some("gin__int_ops"),
        Ok(Class::GinInt),
    ),
    (
        Method::Gin,
        ColumnType::Int4Array,
        Some("gist__int_ops"),
        Err(ClassFault::NotFor),
    ),
    (Method::Gin, ColumnType::Jsonb, None, Ok(Class::JsonbOps)),
    (Method::Gin, ColumnType::Hstore, None, Ok(Class::GinHstore)),
    (
        Method::Gin,
        ColumnType::Int4,
        None,
        Err(ClassFault::NoDefault),
    ),
    (
        Method::Gin,
        ColumnType::Int4,
        Some("array_ops"),
        Err(ClassFault::NotFor),
    ),
    (
        Method::Gist,
        ColumnType::Jsonb,
        None,
        Err(ClassFault::NoDefault),
    ),
    (
        Method::Gist,
        ColumnType::Int8,
        Some("gist_int4_ops"),
        Err(ClassFault::NotFor),
    ),
];

#[test]
fn classes_of_types(rt: HostRuntime) {
    for (method, kind, word, want) in &CLASSES {
        assert!(rt;
            class_for(*method, *kind, *word) == *want,
            "at {method:?} {kind:?}"
        );
    }
    assert!(rt; Method::named("gist") == Some(Method::Gist));
    assert!(rt; Method::named("gin") == Some(Method::Gin));
    assert!(rt; Method::named("btree") == None);
}

/// A class, what is given with it, and its parameter.
const PARAMETERS: [(
    Class,
    Option<(&'static str, u64)>,
    Result<u16, BadParameter>,
); 13] = [
    (Class::GistInt, None, Ok(100)),
    (Class::GistInt, Some(("numranges", 200)), Ok(200)),
    (Class::GistInt, Some(("numranges", 201)), Err(BadParameter)),
    (Class::GistInt, Some(("numranges", 0)), Err(BadParameter)),
    (Class::GistInt, Some(("siglen", 8)), Err(BadParameter)),
    (Class::GistIntbig, None, Ok(252)),
    (Class::GistIntbig, Some(("siglen", 12)), Err(BadParameter)),
    (Class::GistLtree, None, Ok(8)),
    (Class::GistLtree, Some(("siglen", 252)), Ok(252)),
    (Class::GistHstore, None, Ok(16)),
    (Class::GistHstore, Some(("siglen", 4)), Ok(4)),
    (Class::GistInt4, None, Ok(0)),
    (Class::GistInt4, Some(("siglen", 8)), Err(BadParameter)),
];

#[test]
fn parameters_of_classes(rt: HostRuntime) {
    for (class, given, want) in &PARAMETERS {
        assert!(rt;
            parameter_for(*class, *given) == *want,
            "at {class:?} {given:?}"
        );
    }
}

/// A class, an operator, the type of the operand, and whether the class supports them.
const SUPPORTED: [(Class, Operator, OperandType, bool); 13] = [
    (
        Class::GistInt,
        Operator::Contains,
        OperandType::Int4Array,
        true,
    ),
    (
        Class::GistInt,
        Operator::Within,
        OperandType::Int4Array,
        false,
    ),
    (
        Class::GistIntbig,
        Operator::Within,
        OperandType::Int4Array,
        false,
    ),
    (
        Class::GistIntbig,
        Operator::Formula,
        OperandType::QueryInt,
        true,
    ),
    (
        Class::ArrayOps,
        Operator::Within,
        OperandType::Int4Array,
        true,
    ),
    (
        Class::ArrayOps,
        Operator::Formula,
        OperandType::QueryInt,
        false,
    ),
    (
        Class::GinInt,
        Operator::Formula,
        OperandType::QueryInt,
        true,
    ),
    (
        Class::JsonbPathOps,
        Operator::Contains,
        OperandType::Jsonb,
        true,
    ),
    (Class::JsonbPathOps, Operator::Has, OperandType::Text, false),
    (Class::JsonbOps, Operator::Has, OperandType::Text, true),
    (Class::RangeOps, Operator::Contains, OperandType::Date, true),
    (
        Class::RangeOps,
        Operator::NotEqual,
        OperandType::Int4Range,
        false,
    ),
    (Class::GistText, Operator::Less, OperandType::Int4, false),
];

#[test]
fn operators_of_classes(rt: HostRuntime) {
    for (class, op, operand, want) in &SUPPORTED {
        assert!(rt;
            supports(*class, *op, *operand) == *want,
            "at {class:?} {op:?}"
        );
    }
}
