//! The tables of what stands as a byte in messages, proxies and optional members.

ghost use Rattle.std.specs.Prelude.{◌≡◌};
ghost use Rattle.case_tables.specs.Protocol.{message_names, reply_names, mode_names, proxy_mode_names, format_names};
ghost use Rattle.case_tables.specs.Rows.{names_of};

use crate::CaseTable;

/// The types of messages. (Ice manual, "Protocol Messages".)
pub fn message_types() -> CaseTable<5>
    ensures { names_of result ≡ message_names }
{
    case_table!["request", "batch", "reply", "validate", "close"]
}

/// The statuses of a reply. (Ice manual, "Reply Message Body".)
pub fn reply_statuses() -> CaseTable<8>
    ensures { names_of result ≡ reply_names }
{
    case_table![
        "success",
        "user exception",
        "object does not exist",
        "facet does not exist",
        "operation does not exist",
        "unknown local exception",
        "unknown user exception",
        "unknown exception",
    ]
}

/// The modes in which an operation is called. (Ice manual, "Request Message Body".)
pub fn operation_modes() -> CaseTable<3>
    ensures { names_of result ≡ mode_names }
{
    case_table!["normal", "nonmutating", "idempotent"]
}

/// The modes in which a proxy calls. (Ice manual, "Data Encoding for Proxies".)
pub fn proxy_modes() -> CaseTable<5>
    ensures { names_of result ≡ proxy_mode_names }
{
    case_table![
        "twoway",
        "oneway",
        "batch oneway",
        "datagram",
        "batch datagram",
    ]
}

/// The formats of optional members. (Ice manual, "Data Encoding for Optional Values".)
pub fn formats() -> CaseTable<8>
    ensures { names_of result ≡ format_names }
{
    case_table!["F1", "F2", "F4", "F8", "Size", "VSize", "FSize", "Class"]
}
