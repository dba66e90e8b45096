//! `proxy TEXT`: the printed form of a proxy, and its bytes.

ghost use Rattle.std.specs.Prelude.{◌≡◌, ◌≤◌, ℕ, List, Option, Some, IfOk, length};
ghost use Rattle.ice_encoding.specs.Proxy.{HasProxySizes};
ghost use Rattle.node_commands.specs.declared.words.TheConstants.{MOST_OF_A_WORD};
ghost use Rattle.node_commands.specs.Words.{proxy as wanted};
ghost use Rattle.node_commands.specs.Outside.{Files, Failures, NoneFailed};
ghost use Rattle.node_commands.specs.Decided.{proxy_lines};
ghost use Rattle.node_commands.specs.Outcomes.{FindsBytes, bytes_found};

use crate::outcome::Outcome;
use ice_proxy::{parse_text, print_text, write_proxy};
use ice_types::Proxy;
use std::alloc::{AllocError, Global};

/// The proxy that the text stands for, printed, and its bytes in hexadecimal, a line each; or why
/// there is none.
pub fn proxy(alloc: Global, text: &str) -> Result<Vec<u8>, Outcome<'static>>
    requires { length text.now ≤ MOST_OF_A_WORD }
    ensures { (files : Option Files) (input : Option (List ℕ)) (counts : Failures)
        → FindsBytes (wanted text.now) files input counts counts (bytes_found result) }
{
    let proxy = parse_text(alloc, text)?;
    let lines = lines_of(alloc, &proxy);
    drop(proxy);
    Ok(lines?)
}

/// The lines that tell a proxy.
fn lines_of(alloc: Global, proxy: &Proxy) -> Result<Vec<u8>, AllocError>
    requires { HasProxySizes (Some proxy.now) }
    ensures { IfOk result (λ lines. lines.items ≡ proxy_lines proxy.now) }
{
    let mut bytes = Vec::new(alloc);
    write_proxy(&mut bytes, Some(proxy))?;
    let mut lines = Vec::new(alloc);
    lines.extend_from_slice(print_text(alloc, proxy)?.as_str().as_bytes())?;
    lines.push(b'\n')?;
    lines.extend_from_slice(hex::encode(alloc, bytes)?.as_bytes())?;
    lines.push(b'\n')?;
    Ok(lines)
}
