ghost use Rattle.std.specs.Prelude.{◌≤◌, length};

use std::alloc::Global;
use std::process::Abort;
use std::test::Fail;
use taps_base::{Body, List};
use taps_candidate::{build_plan, plan_text};
use taps_endpoint::{Address, derive_addresses};
use taps_preconnection::{Preconnection, read_preconnection};
use taps_property::Role;

// Files, each with the plan of Initiate.
static PLANS: [(&str, &str); 6] = [
    (
        "remote = [{ host = \"h\", port = 9000 }]\nhosts = { h = [\"::1\", \"::2\", \"127.0.0.1\"] }",
        "leaves 3\n0 any tcp [::1]:9000 +0\n1 any tcp 127.0.0.1:9000 +250\n2 any tcp [::2]:9000 +250\n",
    ),
    (
        "remote = [{ address = \"unix:/s\" }, { address = \"127.0.0.1:9000\" }, { address = \"[::1]:9000\" }, { address = \"[::2]:9000\" }, { address = \"127.0.0.2:9000\" }]",
        "leaves 5\n0 any tcp 127.0.0.1:9000 +0\n1 any tcp [::1]:9000 +250\n2 any tcp 127.0.0.2:9000 +250\n3 any tcp [::2]:9000 +250\n4 any unix unix:/s +250\n",
    ),
    (
        "selection.interface = [{ name = \"wlan\", preference = \"avoid\" }]\npath = [{ interface = \"wlan\", families = [\"inet4\"] }, { interface = \"eth\" }]\nremote = [{ address = \"[::1]:9000\" }, { address = \"127.0.0.1:9000\" }]",
        "leaves 3\n0 eth tcp [::1]:9000 +0\n1 eth tcp 127.0.0.1:9000 +250\n2 wlan tcp 127.0.0.1:9000 +250\n",
    ),
    (
        "profile = \"unreliable-datagram\"\nremote = [{ address = \"127.0.0.1:9000\" }]",
        "leaves 1\n0 any udp 127.0.0.1:9000 +0\n",
    ),
    (
        "remote = [{ address = \"127.0.0.1:9000\" }, { address = \"127.0.0.2:9000\" }]\nrace.mode = \"failover\"",
        "leaves 2\n0 any tcp 127.0.0.1:9000 +0\n1 any tcp 127.0.0.2:9000 +none\n",
    ),
    (
        "profile = \"reliable-inorder-stream\"\nselection.interface = [{ name = \"eth0\", preference = \"prefer\" }]\npath = [{ interface = \"wlan0\", temporary = true }, { interface = \"eth0\" }]\nremote = [{ host = \"printer.local\", port = 9100 }, { address = \"unix:/run/printer.sock\" }]\nhosts = { \"printer.local\" = [\"fe80::1\", \"192.0.2.7\"] }\nrace.delay_ms = 100",
        "leaves 6\n0 wlan0 tcp [fe80::1]:9100 +0\n1 wlan0 tcp 192.0.2.7:9100 +100\n2 wlan0 unix unix:/run/printer.sock +100\n3 eth0 tcp [fe80::1]:9100 +100\n4 eth0 tcp 192.0.2.7:9100 +100\n5 eth0 unix unix:/run/printer.sock +100\n",
    ),
];

fn read(alloc: Global, file: &str) -> Result<Preconnection, Fail> {
    Ok(read_preconnection(alloc, file.as_bytes())?)
}

fn addresses(alloc: Global, pre: &Preconnection) -> Result<List<Address>, Fail> {
    Ok(derive_addresses(alloc, &pre.remotes, &pre.hosts)?)
}

fn text(alloc: Global, pre: &Preconnection) -> Result<Body, Fail>
    requires { length pre.now.paths.items ≤ 8 }
{
    let addresses = addresses(alloc, pre)?;
    text_over(alloc, pre, &addresses)
}

fn text_over(alloc: Global, pre: &Preconnection, addresses: &List<Address>) -> Result<Body, Fail>
    requires { length pre.now.paths.items ≤ 8 }
{
    match build_plan(alloc, pre, Role::Initiate, addresses) {
        Ok(plan) => Ok(plan_text(alloc, pre, &plan)?),
        Err(_) => Err(Fail::from("memory")),
    }
}

fn is_planned(alloc: Global, pre: &Preconnection, wanted: &str) -> Result<bool, Fail>
    requires { length pre.now.paths.items ≤ 8 }
{
    let body = text(alloc, pre)?;
    Ok(body.bytes() == wanted.as_bytes())
}

fn holds<R: Abort>(rt: &R, alloc: Global, file: &str, wanted: &str) -> Result<(), Fail> {
    let pre = read(alloc, file)?;
    assert!(rt; pre.paths.len() <= 8);
    let planned = is_planned(alloc, &pre, wanted)?;
    assert!(rt; planned, "at {file}");
    Ok(())
}

#[test]
fn plans_as_worked_out(rt: HostRuntime) -> Result<(), Fail> {
    for (file, text) in &PLANS {
        holds(&rt, rt.alloc(), file, text)?;
    }
    Ok(())
}
