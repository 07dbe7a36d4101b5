//! The numbers of the nodes that every heap begins with (ECMA-262, 6.1.7.4), which for a built-in function is also its own.

/// `Object.prototype`.
pub const OBJECT_PROTOTYPE: u32 = 0;

/// `Function.prototype`.
pub const FUNCTION_PROTOTYPE: u32 = 1;

/// `Array.prototype`.
pub const ARRAY_PROTOTYPE: u32 = 2;

/// `String.prototype`.
pub const STRING_PROTOTYPE: u32 = 3;

/// `Map.prototype`.
pub const MAP_PROTOTYPE: u32 = 4;

/// `Set.prototype`.
pub const SET_PROTOTYPE: u32 = 5;

/// `Error.prototype`.
pub const ERROR_PROTOTYPE: u32 = 6;

/// `TypeError.prototype`.
pub const TYPE_ERROR_PROTOTYPE: u32 = 7;

/// `ReferenceError.prototype`.
pub const REFERENCE_ERROR_PROTOTYPE: u32 = 8;

/// `RangeError.prototype`.
pub const RANGE_ERROR_PROTOTYPE: u32 = 9;

/// `Object`.
pub const OBJECT: u32 = 10;

/// `Array`.
pub const ARRAY: u32 = 11;

/// `String`.
pub const STRING: u32 = 12;

/// `Map`.
pub const MAP: u32 = 13;

/// `Set`.
pub const SET: u32 = 14;

/// `Error`.
pub const ERROR: u32 = 15;

/// `TypeError`.
pub const TYPE_ERROR: u32 = 16;

/// `ReferenceError`.
pub const REFERENCE_ERROR: u32 = 17;

/// `RangeError`.
pub const RANGE_ERROR: u32 = 18;

/// `console`.
pub const CONSOLE: u32 = 19;

/// `host`.
pub const HOST: u32 = 20;

/// The module `v8`.
pub const V8_MODULE: u32 = 21;

/// `startupSnapshot` of the module `v8`.
pub const STARTUP_SNAPSHOT: u32 = 22;

/// `require`.
pub const REQUIRE: u32 = 23;

/// `Object.prototype.hasOwnProperty`.
pub const HAS_OWN_PROPERTY: u32 = 24;

/// `Array.prototype.filter`.
pub const ARRAY_FILTER: u32 = 25;

/// `Array.prototype.forEach`.
pub const ARRAY_FOR_EACH: u32 = 26;

/// `Array.prototype.indexOf`.
pub const ARRAY_INDEX_OF: u32 = 27;

/// `Array.prototype.join`.
pub const ARRAY_JOIN: u32 = 28;

/// `Array.prototype.map`.
pub const ARRAY_MAP: u32 = 29;

/// `Array.prototype.pop`.
pub const ARRAY_POP: u32 = 30;

/// `Array.prototype.push`.
pub const ARRAY_PUSH: u32 = 31;

/// `Array.prototype.slice`.
pub const ARRAY_SLICE: u32 = 32;

/// `String.prototype.charCodeAt`.
pub const STRING_CHAR_CODE_AT: u32 = 33;

/// `String.prototype.slice`.
pub const STRING_SLICE: u32 = 34;

/// `Map.prototype.clear`.
pub const MAP_CLEAR: u32 = 35;

/// `Map.prototype.delete`.
pub const MAP_DELETE: u32 = 36;

/// `Map.prototype.forEach`.
pub const MAP_FOR_EACH: u32 = 37;

/// `Map.prototype.get`.
pub const MAP_GET: u32 = 38;

/// `Map.prototype.has`.
pub const MAP_HAS: u32 = 39;

/// `Map.prototype.set`.
pub const MAP_SET: u32 = 40;

/// `Set.prototype.add`.
pub const SET_ADD: u32 = 41;

/// `Set.prototype.clear`.
pub const SET_CLEAR: u32 = 42;

/// `Set.prototype.delete`.
pub const SET_DELETE: u32 = 43;

/// `Set.prototype.forEach`.
pub const SET_FOR_EACH: u32 = 44;

/// `Set.prototype.has`.
pub const SET_HAS: u32 = 45;

/// `Object.create`.
pub const OBJECT_CREATE: u32 = 46;

/// `Object.freeze`.
pub const OBJECT_FREEZE: u32 = 47;

/// `Object.getPrototypeOf`.
pub const OBJECT_GET_PROTOTYPE_OF: u32 = 48;

/// `Object.isFrozen`.
pub const OBJECT_IS_FROZEN: u32 = 49;

/// `Object.keys`.
pub const OBJECT_KEYS: u32 = 50;

/// `Array.isArray`.
pub const ARRAY_IS_ARRAY: u32 = 51;

/// `console.log`.
pub const CONSOLE_LOG: u32 = 52;

/// `host.args`.
pub const HOST_ARGS: u32 = 53;

/// `host.close`.
pub const HOST_CLOSE: u32 = 54;

/// `host.isolate`.
pub const HOST_ISOLATE: u32 = 55;

/// `host.native`.
pub const HOST_NATIVE: u32 = 56;

/// `host.resource`.
pub const HOST_RESOURCE: u32 = 57;

/// `startupSnapshot.addDeserializeCallback`.
pub const ADD_DESERIALIZE_CALLBACK: u32 = 58;

/// `startupSnapshot.addSerializeCallback`.
pub const ADD_SERIALIZE_CALLBACK: u32 = 59;

/// `startupSnapshot.isBuildingSnapshot`.
pub const IS_BUILDING_SNAPSHOT: u32 = 60;

/// `startupSnapshot.setDeserializeMainFunction`.
pub const SET_DESERIALIZE_MAIN_FUNCTION: u32 = 61;

/// How many nodes every heap begins with.
pub const INTRINSICS: u32 = 62;

/// The number of a context's global object, which stands directly behind the intrinsics of a fresh heap.
pub const GLOBAL_OBJECT: u32 = 62;
