//! Texts and bytes that several tests use.

/// A statement.
pub const STATEMENT: &str =
    r#"{"id":"11111111-1111-4111-8111-111111111111","actor":{"mbox":"mailto:a@b"},"verb":{"id":"http://v/1"},"object":{"id":"http://a/1"}}"#;

/// The words that serve the file `s` to two connections at most.
pub const SERVE: &str = "serve s 127.0.0.1:8080 --workers 1 --connections 2";

/// The statement under its id, as the admin.
pub const PUT: &str =
    "PUT /xapi/statements?statementId=11111111-1111-4111-8111-111111111111 HTTP/1.1\r\nX-Experience-API-Version: 1.0.3\r\nAuthorization: Basic adminadmin\r\nContent-Length: 131\r\n\r\n{\"id\":\"11111111-1111-4111-8111-111111111111\",\"actor\":{\"mbox\":\"mailto:a@b\"},\"verb\":{\"id\":\"http://v/1\"},\"object\":{\"id\":\"http://a/1\"}}";

/// That statement is asked for.
pub const GET: &str =
    "GET /xapi/statements?statementId=11111111-1111-4111-8111-111111111111 HTTP/1.1\r\nX-Experience-API-Version: 1.0.3\r\nAuthorization: Basic adminadmin\r\n\r\n";

/// The same statement without an array.
pub const POST: &str =
    "POST /xapi/statements HTTP/1.1\r\nX-Experience-API-Version: 1.0.3\r\nAuthorization: Basic adminadmin\r\nContent-Length: 131\r\n\r\n{\"id\":\"11111111-1111-4111-8111-111111111111\",\"actor\":{\"mbox\":\"mailto:a@b\"},\"verb\":{\"id\":\"http://v/1\"},\"object\":{\"id\":\"http://a/1\"}}";

/// A provider is made.
pub const MAKE: &str =
    "POST /desk/callers HTTP/1.1\r\nAuthorization: Basic adminadmin\r\nContent-Length: 14\r\n\r\n{\"name\":\"p.1\"}";

/// What is sent if a statement was put.
pub const NO_CONTENT: &str = "HTTP/1.1 204 No Content\r\nX-Experience-API-Version: 1.0.3\r\n\r\n";

/// What is sent to that question behind that PUT.
pub const SHOWN: &str =
    "HTTP/1.1 200 OK\r\nContent-Type: application/json\r\nContent-Length: 342\r\nX-Experience-API-Version: 1.0.3\r\nX-Experience-API-Consistent-Through: 2023-11-14T22:13:20.000Z\r\n\r\n{\"actor\":{\"mbox\":\"mailto:a@b\"},\"verb\":{\"id\":\"http://v/1\"},\"object\":{\"id\":\"http://a/1\"},\"id\":\"11111111-1111-4111-8111-111111111111\",\"timestamp\":\"2023-11-14T22:13:20.000Z\",\"stored\":\"2023-11-14T22:13:20.000Z\",\"authority\":{\"objectType\":\"Agent\",\"name\":\"admin\",\"account\":{\"homePage\":\"https://lrs.invalid/callers\",\"name\":\"admin\"}},\"version\":\"1.0.0\"}";

/// What is sent if the disk fails.
pub const DISK: &str =
    "HTTP/1.1 503 Service Unavailable\r\nContent-Type: application/json\r\nContent-Length: 16\r\nX-Experience-API-Version: 1.0.3\r\n\r\n{\"error\":\"disk\"}";

// The store of one founding entry: the header, the frame's gate, length and number, the entry, and the end gate.
const STORED: &[u8] =
    b"\x01LRSJRNL\x02\0\0\0\0\0\x01\0\0\x01\0\0\0\xba\0\0\0\0\0\0\0\0{\"caller\":\"*\",\"moment\":1700000000000,\"draw\":\"0000000000000000000000000000000000000000000000000000000000000000\",\"command\":{\"found\":{\"admin\":\"adminadmin\",\"base\":\"http://127.0.0.1:8080/\"}}}\0";

/// The bytes of a new store. A function that names the bytes themselves takes long to prove.
pub fn stored() -> &'static [u8] {
    STORED
}

// The same in the old format, where a frame has no number.
const OLD: &[u8] =
    b"\x01LRSJRNL\x01\0\0\0\0\0\x01\0\0\x01\0\0\0\xba{\"caller\":\"*\",\"moment\":1700000000000,\"draw\":\"0000000000000000000000000000000000000000000000000000000000000000\",\"command\":{\"found\":{\"admin\":\"adminadmin\",\"base\":\"http://127.0.0.1:8080/\"}}}\0";

// The header alone is no store of a history.
const HEADER: &[u8] = b"\x01LRSJRNL\x02\0\0\0\0\0\x01\0\0";

/// What the file of this name holds.
pub fn file_of<'a>(name: &str, last: &'a [u8]) -> &'a [u8] {
    match name {
        "none" => &[],
        "header" => HEADER,
        "letter" => b"a letter",
        "store" => stored(),
        "old" => OLD,
        _ => last,
    }
}
