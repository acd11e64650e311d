// Asks a scope for files, sets marks, and prints what the scope answers. What can't be written is left out.
#![tactic(auto)]

use scope::id::{FileName, ModuleId};
use scope::{NoSuchModule, Numbers, Scope, TooManyFiles};

fn print_numbers(rt: &impl Print, file: u16, answer: Result<Numbers, TooManyFiles>) {
    let _ = match answer {
        Ok(n) => println!(rt;
            "file {file}: module {}, local context {}, export context {}",
            n.id.0, n.local_ctxt.0, n.export_ctxt.0
        ),
        Err(TooManyFiles) => println!(rt; "file {file}: refused, 5"),
    };
}

fn print_set(rt: &impl Print, label: &str, id: ModuleId, answer: Result<(), NoSuchModule>) {
    let _ = match answer {
        Ok(()) => println!(rt; "{label} module {}: set", id.0),
        Err(NoSuchModule) => println!(rt; "{label} module {}: refused, 12", id.0),
    };
}

fn print_mark(rt: &impl Print, label: &str, answer: Result<bool, NoSuchModule>) {
    let _ = match answer {
        Ok(true) => print!(rt; "{label} yes"),
        Ok(false) => print!(rt; "{label} no"),
        Err(NoSuchModule) => print!(rt; "{label} refused, 12"),
    };
}

fn print_module(rt: &impl Print, scope: Scope, id: ModuleId) {
    let _ = print!(rt; "module {}", id.0);
    print_mark(rt, ": loaded", scope.is_loaded(id));
    print_mark(rt, ", stored", scope.is_stored(id));
    print_mark(rt, ", cjs", scope.is_cjs(id));
    print_mark(rt, ", wrapping", scope.should_be_wrapped_with_a_fn(id));
    let _ = match scope.wrapped_esm_id(id) {
        Ok(Some(i)) => println!(rt; ", wrapped id atom {} context {}", i.0.0, i.1.0),
        Ok(None) => println!(rt; ", no wrapped id"),
        Err(NoSuchModule) => println!(rt; ", wrapped id refused, 12"),
    };
}

// As many new files as a scope takes, and one more. Inlined, each round copies the scope more often.
#[inline(never)]
fn fill(rt: &impl Print, mut scope: Scope) {
    for file in 1000..1256 {
        scope = scope.gen_id(FileName(file)).scope;
    }
    print_numbers(rt, 2000, scope.gen_id(FileName(2000)).answer);
}

// The three numbers are proved from the scope's contracts.
fn show(rt: &impl Print) {
    let own = Scope::new().gen_id(FileName(9));
    let other = own.scope.gen_id(FileName(10));
    let again = other.scope.gen_id(FileName(9));
    print_numbers(rt, 9, own.answer);
    print_numbers(rt, 10, other.answer);
    print_numbers(rt, 9, again.answer);
    let first = own.answer.unwrap();
    let second = other.answer.unwrap();
    let third = again.answer.unwrap();
    prove!(first.export_ctxt.0 == 3);
    prove!(second.export_ctxt.0 == 5);
    prove!(third.id.0 == 0);
    let loaded = again.scope.mark_as_loaded(second.id);
    print_set(rt, "loaded", second.id, loaded.answer);
    let wrapping = loaded.scope.mark_as_wrapping_required(second.id);
    print_set(rt, "wrapping", second.id, wrapping.answer);
    print_module(rt, wrapping.scope, second.id);
    let stored = wrapping.scope.store_module(second.id);
    print_set(rt, "stored", second.id, stored.answer);
    let cjs = stored.scope.mark_as_cjs(ModuleId(7));
    print_set(rt, "cjs", ModuleId(7), cjs.answer);
    print_module(rt, stored.scope, first.id);
    print_module(rt, stored.scope, second.id);
    print_module(rt, stored.scope, ModuleId(7));
    fill(rt, stored.scope);
}

fn main(rt: HostRuntime) {
    show(&rt);
}
