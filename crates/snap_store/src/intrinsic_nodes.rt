//! The nodes that every heap begins with.

ghost use Rattle.std.specs.Prelude.{◌≡◌, ◌++◌, ◌∷◌, [], IfOk, OnOk, drop, map, take};
ghost use Rattle.snap_graph.specs.declared.kind.Kind.TheVariants.{Plain};
ghost use Rattle.snap_graph.specs.declared.value.Value.TheVariants.{Node as At};
ghost use Rattle.snap_graph.specs.Intrinsics as given;
ghost use Rattle.snap_store.specs.Rows.{own_in, row_node};

use snap_base::NoMemory as NoMemoryAbove;
use snap_graph::{Graph, Items, Kind, Node, Property, Value, intrinsic};
use snap_text::{NoMemory, StrView};
use std::alloc::Global;

// A node of objects alone: its kind, its prototype, and its own properties, each with the number of the node
// that it holds. It is frozen and has no elements.
#[derive(Drop)]
struct Row<'a> {
    kind: Kind,
    prototype: Option<u32>,
    own: &'a [(&'a [u8], u32)],
}

fn own_properties(alloc: Global, rows: &[(&[u8], u32)]) -> Result<Items<Property>, NoMemory>
    ensures { IfOk result (λ properties. properties ≡ map own_in rows.now) }
{
    let mut properties = Vec::new(alloc);
    for row in rows {
        let key = StrView::One(row.0).copy(alloc)?;
        let value = Value::Node(row.1);
        properties.push(Property { key, value })?;
    }
    Ok(Items::from_vec(properties))
}

fn row_as_node(alloc: Global, row: &Row) -> Result<Node, NoMemory>
    ensures { IfOk result (λ node. node ≡ row_node row.now) }
{
    let prototype = match row.prototype {
        Some(number) => Value::Node(number),
        None => Value::Null,
    };
    Ok(Node {
        kind: row.kind,
        prototype,
        frozen: true,
        properties: own_properties(alloc, row.own)?,
        elements: Items::from_vec(Vec::new(alloc)),
    })
}

fn push_rows(alloc: Global, nodes: &mut Vec<Node>, rows: &[Row]) -> Result<(), NoMemory>
    ensures { OnOk result (nodes.new.items ≡ nodes.old.items ++ map row_node rows.now) }
{
    for row in rows {
        nodes.push(row_as_node(alloc, row)?)?;
    }
    Ok(())
}

// The methods, which have no properties.
fn push_methods(alloc: Global, nodes: &mut Vec<Node>) -> Result<(), NoMemory>
    ensures { OnOk result (nodes.new.items ≡ nodes.old.items ++ given.natives_from 24 38) }
{
    for native in intrinsic::HAS_OWN_PROPERTY..intrinsic::INTRINSICS {
        let row = Row {
            kind: Kind::Native { native },
            prototype: Some(intrinsic::FUNCTION_PROTOTYPE),
            own: &[],
        };
        nodes.push(row_as_node(alloc, &row)?)?;
    }
    Ok(())
}

fn text_property(alloc: Global, key: &[u8], text: &[u8]) -> Result<Property, NoMemory>
    ensures { IfOk result (λ property. property ≡ given.own_text key.now text.now) }
{
    Ok(Property {
        key: StrView::One(key).copy(alloc)?,
        value: Value::Text(StrView::One(text).copy(alloc)?),
    })
}

// The prototype of the errors of a name, which a constructor makes.
fn error_prototype(alloc: Global, prototype: u32, maker: u32, name: &[u8]) -> Result<Node, NoMemory>
    ensures { IfOk result (λ node. node ≡ given.frozen_node Plain (At prototype) (given.error_properties maker name.now)) }
{
    let mut properties = own_properties(alloc, &[(b"constructor", maker)])?.into_vec();
    properties.push(text_property(alloc, b"message", b"")?)?;
    properties.push(text_property(alloc, b"name", name)?)?;
    Ok(Node {
        kind: Kind::Plain,
        prototype: Value::Node(prototype),
        frozen: true,
        properties: Items::from_vec(properties),
        elements: Items::from_vec(Vec::new(alloc)),
    })
}

fn push_errors(alloc: Global, nodes: &mut Vec<Node>) -> Result<(), NoMemory>
    ensures { OnOk result (nodes.new.items ≡ nodes.old.items ++ drop 6 given.prototypes) }
{
    nodes.push(error_prototype(
        alloc,
        intrinsic::OBJECT_PROTOTYPE,
        intrinsic::ERROR,
        b"Error",
    )?)?;
    nodes.push(error_prototype(
        alloc,
        intrinsic::ERROR_PROTOTYPE,
        intrinsic::TYPE_ERROR,
        b"TypeError",
    )?)?;
    nodes.push(error_prototype(
        alloc,
        intrinsic::ERROR_PROTOTYPE,
        intrinsic::REFERENCE_ERROR,
        b"ReferenceError",
    )?)?;
    nodes.push(error_prototype(
        alloc,
        intrinsic::ERROR_PROTOTYPE,
        intrinsic::RANGE_ERROR,
        b"RangeError",
    )?)?;
    Ok(())
}

// The prototypes of objects, functions, arrays, texts, Maps and Sets.
fn push_prototypes(alloc: Global, nodes: &mut Vec<Node>) -> Result<(), NoMemory>
    ensures { OnOk result (nodes.new.items ≡ nodes.old.items ++ take 6 given.prototypes) }
{
    let rows = [
        Row {
            kind: Kind::Plain,
            prototype: None,
            own: &[
                (b"constructor", intrinsic::OBJECT),
                (b"hasOwnProperty", intrinsic::HAS_OWN_PROPERTY),
            ],
        },
        Row {
            kind: Kind::Native {
                native: intrinsic::FUNCTION_PROTOTYPE,
            },
            prototype: Some(intrinsic::OBJECT_PROTOTYPE),
            own: &[],
        },
        Row {
            kind: Kind::Array,
            prototype: Some(intrinsic::OBJECT_PROTOTYPE),
            own: &[
                (b"constructor", intrinsic::ARRAY),
                (b"filter", intrinsic::ARRAY_FILTER),
                (b"forEach", intrinsic::ARRAY_FOR_EACH),
                (b"indexOf", intrinsic::ARRAY_INDEX_OF),
                (b"join", intrinsic::ARRAY_JOIN),
                (b"map", intrinsic::ARRAY_MAP),
                (b"pop", intrinsic::ARRAY_POP),
                (b"push", intrinsic::ARRAY_PUSH),
                (b"slice", intrinsic::ARRAY_SLICE),
            ],
        },
        Row {
            kind: Kind::Plain,
            prototype: Some(intrinsic::OBJECT_PROTOTYPE),
            own: &[
                (b"constructor", intrinsic::STRING),
                (b"charCodeAt", intrinsic::STRING_CHAR_CODE_AT),
                (b"slice", intrinsic::STRING_SLICE),
            ],
        },
        Row {
            kind: Kind::Plain,
            prototype: Some(intrinsic::OBJECT_PROTOTYPE),
            own: &[
                (b"constructor", intrinsic::MAP),
                (b"clear", intrinsic::MAP_CLEAR),
                (b"delete", intrinsic::MAP_DELETE),
                (b"forEach", intrinsic::MAP_FOR_EACH),
                (b"get", intrinsic::MAP_GET),
                (b"has", intrinsic::MAP_HAS),
                (b"set", intrinsic::MAP_SET),
            ],
        },
        Row {
            kind: Kind::Plain,
            prototype: Some(intrinsic::OBJECT_PROTOTYPE),
            own: &[
                (b"constructor", intrinsic::SET),
                (b"add", intrinsic::SET_ADD),
                (b"clear", intrinsic::SET_CLEAR),
                (b"delete", intrinsic::SET_DELETE),
                (b"forEach", intrinsic::SET_FOR_EACH),
                (b"has", intrinsic::SET_HAS),
            ],
        },
    ];
    push_rows(alloc, nodes, &rows)
}

// The constructors.
fn push_constructors(alloc: Global, nodes: &mut Vec<Node>) -> Result<(), NoMemory>
    ensures { OnOk result (nodes.new.items ≡ nodes.old.items ++ given.constructors) }
{
    let rows = [
        Row {
            kind: Kind::Native {
                native: intrinsic::OBJECT,
            },
            prototype: Some(intrinsic::FUNCTION_PROTOTYPE),
            own: &[
                (b"prototype", intrinsic::OBJECT_PROTOTYPE),
                (b"create", intrinsic::OBJECT_CREATE),
                (b"freeze", intrinsic::OBJECT_FREEZE),
                (b"getPrototypeOf", intrinsic::OBJECT_GET_PROTOTYPE_OF),
                (b"isFrozen", intrinsic::OBJECT_IS_FROZEN),
                (b"keys", intrinsic::OBJECT_KEYS),
            ],
        },
        Row {
            kind: Kind::Native {
                native: intrinsic::ARRAY,
            },
            prototype: Some(intrinsic::FUNCTION_PROTOTYPE),
            own: &[
                (b"prototype", intrinsic::ARRAY_PROTOTYPE),
                (b"isArray", intrinsic::ARRAY_IS_ARRAY),
            ],
        },
        Row {
            kind: Kind::Native {
                native: intrinsic::STRING,
            },
            prototype: Some(intrinsic::FUNCTION_PROTOTYPE),
            own: &[(b"prototype", intrinsic::STRING_PROTOTYPE)],
        },
        Row {
            kind: Kind::Native {
                native: intrinsic::MAP,
            },
            prototype: Some(intrinsic::FUNCTION_PROTOTYPE),
            own: &[(b"prototype", intrinsic::MAP_PROTOTYPE)],
        },
        Row {
            kind: Kind::Native {
                native: intrinsic::SET,
            },
            prototype: Some(intrinsic::FUNCTION_PROTOTYPE),
            own: &[(b"prototype", intrinsic::SET_PROTOTYPE)],
        },
        Row {
            kind: Kind::Native {
                native: intrinsic::ERROR,
            },
            prototype: Some(intrinsic::FUNCTION_PROTOTYPE),
            own: &[(b"prototype", intrinsic::ERROR_PROTOTYPE)],
        },
        Row {
            kind: Kind::Native {
                native: intrinsic::TYPE_ERROR,
            },
            prototype: Some(intrinsic::ERROR),
            own: &[(b"prototype", intrinsic::TYPE_ERROR_PROTOTYPE)],
        },
        Row {
            kind: Kind::Native {
                native: intrinsic::REFERENCE_ERROR,
            },
            prototype: Some(intrinsic::ERROR),
            own: &[(b"prototype", intrinsic::REFERENCE_ERROR_PROTOTYPE)],
        },
        Row {
            kind: Kind::Native {
                native: intrinsic::RANGE_ERROR,
            },
            prototype: Some(intrinsic::ERROR),
            own: &[(b"prototype", intrinsic::RANGE_ERROR_PROTOTYPE)],
        },
    ];
    push_rows(alloc, nodes, &rows)
}

// The host's objects.
fn push_hosts(alloc: Global, nodes: &mut Vec<Node>) -> Result<(), NoMemory>
    ensures { OnOk result (nodes.new.items ≡ nodes.old.items ++ given.host_objects) }
{
    let rows = [
        Row {
            kind: Kind::Plain,
            prototype: Some(intrinsic::OBJECT_PROTOTYPE),
            own: &[(b"log", intrinsic::CONSOLE_LOG)],
        },
        Row {
            kind: Kind::Plain,
            prototype: Some(intrinsic::OBJECT_PROTOTYPE),
            own: &[
                (b"args", intrinsic::HOST_ARGS),
                (b"close", intrinsic::HOST_CLOSE),
                (b"isolate", intrinsic::HOST_ISOLATE),
                (b"native", intrinsic::HOST_NATIVE),
                (b"resource", intrinsic::HOST_RESOURCE),
            ],
        },
        Row {
            kind: Kind::Plain,
            prototype: Some(intrinsic::OBJECT_PROTOTYPE),
            own: &[(b"startupSnapshot", intrinsic::STARTUP_SNAPSHOT)],
        },
        Row {
            kind: Kind::Plain,
            prototype: Some(intrinsic::OBJECT_PROTOTYPE),
            own: &[
                (
                    b"addDeserializeCallback",
                    intrinsic::ADD_DESERIALIZE_CALLBACK,
                ),
                (b"addSerializeCallback", intrinsic::ADD_SERIALIZE_CALLBACK),
                (b"isBuildingSnapshot", intrinsic::IS_BUILDING_SNAPSHOT),
                (
                    b"setDeserializeMainFunction",
                    intrinsic::SET_DESERIALIZE_MAIN_FUNCTION,
                ),
            ],
        },
        Row {
            kind: Kind::Native {
                native: intrinsic::REQUIRE,
            },
            prototype: Some(intrinsic::FUNCTION_PROTOTYPE),
            own: &[],
        },
    ];
    push_rows(alloc, nodes, &rows)
}

/// The 62 nodes that every heap begins with.
pub fn intrinsics(alloc: Global) -> Result<Graph, NoMemoryAbove>
    ensures { IfOk result (λ graph. graph.nodes ≡ given.intrinsics) }
{
    match all_nodes(alloc) {
        Ok(nodes) => Ok(Graph {
            nodes: Items::from_vec(nodes),
        }),
        Err(_) => Err(NoMemoryAbove),
    }
}

fn all_nodes(alloc: Global) -> Result<Vec<Node>, NoMemory>
    ensures { IfOk result (λ nodes. nodes.items ≡ given.intrinsics) }
{
    let mut nodes = Vec::new(alloc);
    push_prototypes(alloc, &mut nodes)?;
    push_errors(alloc, &mut nodes)?;
    push_constructors(alloc, &mut nodes)?;
    push_hosts(alloc, &mut nodes)?;
    push_methods(alloc, &mut nodes)?;
    Ok(nodes)
}
