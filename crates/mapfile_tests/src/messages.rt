use maplex::LexKind;
use mapparse::{ParseFault, ParseKind};
use std::alloc::{AllocError, Global};
use test_tables::{TableFault, check_rows};

// Each differs from the one above it in one field.
const FAULTS: [ParseFault; 13] = [
    ParseFault::At {
        line: 7,
        kind: ParseKind::Lex(LexKind::OpenString),
    },
    ParseFault::At {
        line: 7,
        kind: ParseKind::Lex(LexKind::BadByte),
    },
    ParseFault::At {
        line: 7,
        kind: ParseKind::UnknownWord,
    },
    ParseFault::At {
        line: 7,
        kind: ParseKind::WrongValue,
    },
    ParseFault::At {
        line: 7,
        kind: ParseKind::MissingEnd,
    },
    ParseFault::At {
        line: 7,
        kind: ParseKind::MissingValue,
    },
    ParseFault::At {
        line: 7,
        kind: ParseKind::Limit,
    },
    ParseFault::At {
        line: 7,
        kind: ParseKind::MissingFile,
    },
    ParseFault::At {
        line: 7,
        kind: ParseKind::DuplicateName,
    },
    ParseFault::At {
        line: 80,
        kind: ParseKind::DuplicateName,
    },
    ParseFault::At {
        line: 80,
        kind: ParseKind::BadExpression,
    },
    ParseFault::At {
        line: 80,
        kind: ParseKind::BadFile,
    },
    ParseFault::NoMemory,
];

// Their numbers and messages, by their indices in the list.
const MESSAGES: &str = "\
1 line 7: the quoted text, expression or list that begins here is not closed=0
1 line 7: a bracket that closes nothing, a control character, or a byte that is not UTF-8=1
2 line 7: a word that may not stand here=2
3 line 7: a value that its keyword does not take=3
4 line 7: the mapfile ends where an END is missing=4
5 line 7: an END before a required keyword or value=5
6 line 7: more symbols, layers, classes, styles, labels, features, vertices, items or names of fonts than a map may have=6
7 line 7: a file that can't be read=7
8 line 7: an earlier layer has the same name=8
8 line 80: an earlier layer has the same name=9
9 line 80: no expression=10
10 line 80: a file that is none of its kind=11
out of memory=12";

fn message(alloc: Global, fault: ParseFault) -> Result<String, AllocError> {
    match fault {
        ParseFault::At { kind, .. } => format!(in alloc; "{} {fault}", kind.number()),
        ParseFault::NoMemory => format!(in alloc; "{fault}"),
    }
}

fn message_at(alloc: Global, index: &str) -> Result<String, AllocError> {
    match FAULTS.get(index.parse::<usize>().unwrap_or(FAULTS.len())) {
        Some(fault) => message(alloc, *fault),
        None => String::from_str(alloc, "malformed"),
    }
}

#[test]
fn faults_have_numbers_and_messages(rt: HostRuntime) -> Result<(), TableFault> {
    check_rows(rt.alloc(), MESSAGES, '=', 13, message_at)
}
