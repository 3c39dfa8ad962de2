//! The bodies of the messages that the tables name.

/// Bodies that come in.
const HEARD: [(&str, &str); 34] = [
    ("nothing", ""),
    (
        "initialize",
        r#"{"id":1,"jsonrpc":"2.0","method":"initialize","params":{}}"#,
    ),
    (
        "initialize /w",
        r#"{"id":1,"jsonrpc":"2.0","method":"initialize","params":{"rootUri":"file:///w"}}"#,
    ),
    (
        "initialized",
        r#"{"jsonrpc":"2.0","method":"initialized","params":{}}"#,
    ),
    (
        "shutdown",
        r#"{"id":2,"jsonrpc":"2.0","method":"shutdown"}"#,
    ),
    (
        "shutdown 3",
        r#"{"id":3,"jsonrpc":"2.0","method":"shutdown"}"#,
    ),
    (
        "shutdown 9",
        r#"{"id":9,"jsonrpc":"2.0","method":"shutdown"}"#,
    ),
    ("exit", r#"{"jsonrpc":"2.0","method":"exit"}"#),
    (
        "unknown x",
        r#"{"id":"x","jsonrpc":"2.0","method":"textDocument/none"}"#,
    ),
    ("$/x", r#"{"jsonrpc":"2.0","method":"$/x"}"#),
    (
        "open a",
        r#"{"jsonrpc":"2.0","method":"textDocument/didOpen","params":{"textDocument":{"languageId":"hlasm","text":" END","uri":"file:///w/a.hlasm","version":1}}}"#,
    ),
    (
        "open a, empty",
        r#"{"jsonrpc":"2.0","method":"textDocument/didOpen","params":{"textDocument":{"languageId":"hlasm","text":"","uri":"file:///w/a.hlasm","version":1}}}"#,
    ),
    (
        "open a again",
        r#"{"jsonrpc":"2.0","method":"textDocument/didOpen","params":{"textDocument":{"languageId":"hlasm","text":"","uri":"file:///w/a.hlasm","version":2}}}"#,
    ),
    (
        "open a, EQU 5",
        r#"{"jsonrpc":"2.0","method":"textDocument/didOpen","params":{"textDocument":{"languageId":"hlasm","text":"A        EQU   5\n         END","uri":"file:///w/a.hlasm","version":1}}}"#,
    ),
    (
        "open a, EQU 1",
        r#"{"jsonrpc":"2.0","method":"textDocument/didOpen","params":{"textDocument":{"languageId":"hlasm","text":"A EQU 1\n END","uri":"file:///w/a.hlasm","version":1}}}"#,
    ),
    (
        "open a, MAC",
        r#"{"jsonrpc":"2.0","method":"textDocument/didOpen","params":{"textDocument":{"languageId":"hlasm","text":" MAC\n END","uri":"file:///w/a.hlasm","version":1}}}"#,
    ),
    (
        "open a, COPY C",
        r#"{"jsonrpc":"2.0","method":"textDocument/didOpen","params":{"textDocument":{"languageId":"hlasm","text":" COPY C\n END","uri":"file:///w/a.hlasm","version":1}}}"#,
    ),
    (
        "open b",
        r#"{"jsonrpc":"2.0","method":"textDocument/didOpen","params":{"textDocument":{"languageId":"hlasm","text":" END","uri":"file:///w/b.hlasm","version":4}}}"#,
    ),
    (
        "open b, MAC",
        r#"{"jsonrpc":"2.0","method":"textDocument/didOpen","params":{"textDocument":{"languageId":"hlasm","text":" MAC\n END","uri":"file:///w/b.hlasm","version":5}}}"#,
    ),
    (
        "open MAC.mac",
        r#"{"jsonrpc":"2.0","method":"textDocument/didOpen","params":{"textDocument":{"languageId":"hlasm","text":" MACRO\n MAC\n MEND\n","uri":"file:///w/mac/MAC.mac","version":7}}}"#,
    ),
    (
        "change a",
        r#"{"jsonrpc":"2.0","method":"textDocument/didChange","params":{"contentChanges":[{"text":"* a comment\n END"}],"textDocument":{"uri":"file:///w/a.hlasm","version":2}}}"#,
    ),
    (
        "change a badly",
        r#"{"jsonrpc":"2.0","method":"textDocument/didChange","params":{"contentChanges":[{"range":{"end":{"character":16,"line":0},"start":{"character":15,"line":0}},"text":"7"},{"range":{"end":{"character":1,"line":1},"start":{"character":2,"line":1}},"text":""}],"textDocument":{"uri":"file:///w/a.hlasm","version":2}}}"#,
    ),
    (
        "insert a 2",
        r#"{"jsonrpc":"2.0","method":"textDocument/didChange","params":{"contentChanges":[{"range":{"end":{"character":0,"line":0},"start":{"character":0,"line":0}},"text":" ANOP\n"}],"textDocument":{"uri":"file:///w/a.hlasm","version":2}}}"#,
    ),
    (
        "insert a 3",
        r#"{"jsonrpc":"2.0","method":"textDocument/didChange","params":{"contentChanges":[{"range":{"end":{"character":0,"line":0},"start":{"character":0,"line":0}},"text":" ANOP\n"}],"textDocument":{"uri":"file:///w/a.hlasm","version":3}}}"#,
    ),
    (
        "insert a 4",
        r#"{"jsonrpc":"2.0","method":"textDocument/didChange","params":{"contentChanges":[{"range":{"end":{"character":0,"line":0},"start":{"character":0,"line":0}},"text":" ANOP\n"}],"textDocument":{"uri":"file:///w/a.hlasm","version":4}}}"#,
    ),
    (
        "change b",
        r#"{"jsonrpc":"2.0","method":"textDocument/didChange","params":{"contentChanges":[{"range":{"end":{"character":2,"line":0},"start":{"character":1,"line":0}},"text":"A"}],"textDocument":{"uri":"file:///w/b.hlasm","version":5}}}"#,
    ),
    (
        "change MAC.mac",
        r#"{"jsonrpc":"2.0","method":"textDocument/didChange","params":{"contentChanges":[{"range":{"end":{"character":0,"line":2},"start":{"character":0,"line":2}},"text":" MNOTE 8,'x'\n"}],"textDocument":{"uri":"file:///w/mac/MAC.mac","version":8}}}"#,
    ),
    (
        "close a",
        r#"{"jsonrpc":"2.0","method":"textDocument/didClose","params":{"textDocument":{"uri":"file:///w/a.hlasm"}}}"#,
    ),
    (
        "close b",
        r#"{"jsonrpc":"2.0","method":"textDocument/didClose","params":{"textDocument":{"uri":"file:///w/b.hlasm"}}}"#,
    ),
    (
        "close MAC.mac",
        r#"{"jsonrpc":"2.0","method":"textDocument/didClose","params":{"textDocument":{"uri":"file:///w/mac/MAC.mac"}}}"#,
    ),
    (
        "delete MAC.mac",
        r#"{"jsonrpc":"2.0","method":"workspace/didChangeWatchedFiles","params":{"changes":[{"type":3,"uri":"file:///w/mac/MAC.mac"}]}}"#,
    ),
    (
        "definition 5",
        r#"{"id":5,"jsonrpc":"2.0","method":"textDocument/definition","params":{"position":{"character":0,"line":3},"textDocument":{"uri":"file:///w/a.hlasm"}}}"#,
    ),
    (
        "cancel 5",
        r#"{"jsonrpc":"2.0","method":"$/cancelRequest","params":{"id":5}}"#,
    ),
    (
        "cancel 99",
        r#"{"jsonrpc":"2.0","method":"$/cancelRequest","params":{"id":99}}"#,
    ),
];

/// Bodies that go out.
const WRITTEN: [(&str, &str); 31] = [
    (
        "capabilities",
        r#"{"id":1,"jsonrpc":"2.0","result":{"capabilities":{"definitionProvider":true,"documentSymbolProvider":true,"hoverProvider":true,"positionEncoding":"utf-16","referencesProvider":true,"textDocumentSync":{"change":2,"openClose":true}},"serverInfo":{"name":"hlasm_ls","version":"1"}}}"#,
    ),
    ("shut", r#"{"id":2,"jsonrpc":"2.0","result":null}"#),
    (
        "parse error",
        r#"{"error":{"code":-32700,"message":"parse error"},"id":null,"jsonrpc":"2.0"}"#,
    ),
    (
        "invalid request",
        r#"{"error":{"code":-32600,"message":"invalid request"},"id":null,"jsonrpc":"2.0"}"#,
    ),
    (
        "not initialized 9",
        r#"{"error":{"code":-32002,"message":"not initialized"},"id":9,"jsonrpc":"2.0"}"#,
    ),
    (
        "invalid request 1",
        r#"{"error":{"code":-32600,"message":"invalid request"},"id":1,"jsonrpc":"2.0"}"#,
    ),
    (
        "invalid request 3",
        r#"{"error":{"code":-32600,"message":"invalid request"},"id":3,"jsonrpc":"2.0"}"#,
    ),
    (
        "invalid request 5",
        r#"{"error":{"code":-32600,"message":"invalid request"},"id":5,"jsonrpc":"2.0"}"#,
    ),
    (
        "unknown method x",
        r#"{"error":{"code":-32601,"message":"unknown method"},"id":"x","jsonrpc":"2.0"}"#,
    ),
    (
        "cancelled 5",
        r#"{"error":{"code":-32800,"message":"cancelled"},"id":5,"jsonrpc":"2.0"}"#,
    ),
    (
        "definition 5",
        r#"{"id":5,"jsonrpc":"2.0","result":{"range":{"end":{"character":1,"line":3},"start":{"character":0,"line":3}},"uri":"file:///w/a.hlasm"}}"#,
    ),
    (
        "a 1: none",
        r#"{"jsonrpc":"2.0","method":"textDocument/publishDiagnostics","params":{"diagnostics":[],"uri":"file:///w/a.hlasm","version":1}}"#,
    ),
    (
        "a 2: none",
        r#"{"jsonrpc":"2.0","method":"textDocument/publishDiagnostics","params":{"diagnostics":[],"uri":"file:///w/a.hlasm","version":2}}"#,
    ),
    (
        "a 4: none",
        r#"{"jsonrpc":"2.0","method":"textDocument/publishDiagnostics","params":{"diagnostics":[],"uri":"file:///w/a.hlasm","version":4}}"#,
    ),
    (
        "a 1: H003",
        r#"{"jsonrpc":"2.0","method":"textDocument/publishDiagnostics","params":{"diagnostics":[{"code":"H003","message":"END statement is missing","range":{"end":{"character":0,"line":0},"start":{"character":0,"line":0}},"severity":2,"source":"hlasm_ls"}],"uri":"file:///w/a.hlasm","version":1}}"#,
    ),
    (
        "a 1: H040",
        r#"{"jsonrpc":"2.0","method":"textDocument/publishDiagnostics","params":{"diagnostics":[{"code":"H040","message":"operation MAC is not defined","range":{"end":{"character":4,"line":0},"start":{"character":0,"line":0}},"severity":1,"source":"hlasm_ls"}],"uri":"file:///w/a.hlasm","version":1}}"#,
    ),
    (
        "a 1: H048",
        r#"{"jsonrpc":"2.0","method":"textDocument/publishDiagnostics","params":{"diagnostics":[{"code":"H048","message":"member C copies itself","range":{"end":{"character":7,"line":0},"start":{"character":0,"line":0}},"relatedInformation":[{"location":{"range":{"end":{"character":7,"line":0},"start":{"character":0,"line":0}},"uri":"file:///w/mac/C.mac"},"message":"copy C"}],"severity":1,"source":"hlasm_ls"}],"uri":"file:///w/a.hlasm","version":1}}"#,
    ),
    (
        "a 1: H049",
        r#"{"jsonrpc":"2.0","method":"textDocument/publishDiagnostics","params":{"diagnostics":[{"code":"H049","message":"member MAC cannot be read","range":{"end":{"character":4,"line":0},"start":{"character":0,"line":0}},"severity":1,"source":"hlasm_ls"}],"uri":"file:///w/a.hlasm","version":1}}"#,
    ),
    (
        "a 1: MNOTE",
        r#"{"jsonrpc":"2.0","method":"textDocument/publishDiagnostics","params":{"diagnostics":[{"code":"MNOTE","message":"x","range":{"end":{"character":4,"line":0},"start":{"character":0,"line":0}},"relatedInformation":[{"location":{"range":{"end":{"character":12,"line":2},"start":{"character":0,"line":2}},"uri":"file:///w/mac/MAC.mac"},"message":"macro MAC"}],"severity":1,"source":"hlasm_ls"}],"uri":"file:///w/a.hlasm","version":1}}"#,
    ),
    (
        "b: none",
        r#"{"jsonrpc":"2.0","method":"textDocument/publishDiagnostics","params":{"diagnostics":[],"uri":"file:///w/b.hlasm"}}"#,
    ),
    (
        "b 4: none",
        r#"{"jsonrpc":"2.0","method":"textDocument/publishDiagnostics","params":{"diagnostics":[],"uri":"file:///w/b.hlasm","version":4}}"#,
    ),
    (
        "b 5: none",
        r#"{"jsonrpc":"2.0","method":"textDocument/publishDiagnostics","params":{"diagnostics":[],"uri":"file:///w/b.hlasm","version":5}}"#,
    ),
    (
        "b 5: H040",
        r#"{"jsonrpc":"2.0","method":"textDocument/publishDiagnostics","params":{"diagnostics":[{"code":"H040","message":"operation MAC is not defined","range":{"end":{"character":4,"line":0},"start":{"character":0,"line":0}},"severity":1,"source":"hlasm_ls"}],"uri":"file:///w/b.hlasm","version":5}}"#,
    ),
    (
        "b 5: H040 H003",
        r#"{"jsonrpc":"2.0","method":"textDocument/publishDiagnostics","params":{"diagnostics":[{"code":"H040","message":"operation AND is not defined","range":{"end":{"character":4,"line":0},"start":{"character":0,"line":0}},"severity":1,"source":"hlasm_ls"},{"code":"H003","message":"END statement is missing","range":{"end":{"character":0,"line":0},"start":{"character":0,"line":0}},"severity":2,"source":"hlasm_ls"}],"uri":"file:///w/b.hlasm","version":5}}"#,
    ),
    (
        "b 5: MNOTE",
        r#"{"jsonrpc":"2.0","method":"textDocument/publishDiagnostics","params":{"diagnostics":[{"code":"MNOTE","message":"x","range":{"end":{"character":4,"line":0},"start":{"character":0,"line":0}},"relatedInformation":[{"location":{"range":{"end":{"character":12,"line":2},"start":{"character":0,"line":2}},"uri":"file:///w/mac/MAC.mac"},"message":"macro MAC"}],"severity":1,"source":"hlasm_ls"}],"uri":"file:///w/b.hlasm","version":5}}"#,
    ),
    (
        "log a: BadRange(1)",
        r#"{"jsonrpc":"2.0","method":"window/logMessage","params":{"message":"textDocument/didChange: BadRange(1)","type":2}}"#,
    ),
    (
        "log a: AlreadyOpen",
        r#"{"jsonrpc":"2.0","method":"window/logMessage","params":{"message":"textDocument/didOpen: AlreadyOpen","type":2}}"#,
    ),
    (
        "log proc_grps.json: BadConfig",
        r#"{"jsonrpc":"2.0","method":"window/logMessage","params":{"message":"/w/.hlasmplugin/proc_grps.json: BadConfig","type":2}}"#,
    ),
    (
        "log pgm_conf.json: BadConfig",
        r#"{"jsonrpc":"2.0","method":"window/logMessage","params":{"message":"/w/.hlasmplugin/pgm_conf.json: BadConfig","type":2}}"#,
    ),
    (
        "log mac: Unlisted",
        r#"{"jsonrpc":"2.0","method":"window/logMessage","params":{"message":"/w/mac: Unlisted","type":2}}"#,
    ),
    (
        "log mac: Absent",
        r#"{"jsonrpc":"2.0","method":"window/logMessage","params":{"message":"/w/mac: Absent","type":2}}"#,
    ),
];

/// The body of a name, where one comes in under it; any other text is a body itself.
pub fn heard(name: &str) -> &str {
    for (known, body) in &HEARD {
        if *known == name {
            return body;
        }
    }
    name
}

/// The name of a body, where it goes out under one; any other body is its own name.
pub fn written(body: &str) -> &str {
    for (name, known) in &WRITTEN {
        if *known == body {
            return name;
        }
    }
    body
}
