//! The text of a run read again.
use std::alloc::Global;
use tm_list::{Copied, NoMemory};
use tm_run::{print_run, read_run};
use tm_types::step::{Run, RunFault};

/// The text of a copy of the run that a text is; none where it is no text of a run.
fn printed_again(alloc: Global, text: &str) -> Result<Option<Vec<u8>>, NoMemory> {
    let Ok(run) = read_run(alloc, text.as_bytes()) else {
        return Ok(None);
    };
    let copied = Run {
        steps: run.steps.copy(alloc)?,
        takes: run.takes.copy(alloc)?,
    };
    let mut out = Vec::new(alloc);
    print_run(alloc, &copied, &mut out)?;
    Ok(Some(out))
}

#[test]
fn runs_read_and_printed_again(rt: HostRuntime) -> Result<(), NoMemory> {
    for text in [
        "run 1\n",
        "run 1\nstep 1 added learn 0 file read /x\nstep 2 there learn 0 file read /x\ntake 1 7 0 0 granted\nlook 0 learning learn stay 1 -\naudit -\ntake 2 8 0 0 granted\nlook 0 learning learn stay 2 -\naudit -\n",
        "run 1\nstep 1 quota learn 4294967295 file symlink /l symlink.target=\"/t\"\nstep 2 mode learn 3 misc env PATH\n",
        "run 1\nstep 1 added learn 0 file execute /usr/bin/python exec.realpath=\"/usr/bin/python3.11\" exec.argv[0]=\"python3\"\n",
        "run 1\nstep 1 new:3 make 0 <kernel> /a\nstep 2 old:4294967295 make 3 </x>\nstep 3 new:0 make 0 <kernel> /a /b\\*\n",
        "run 1\nstep 1 set fail 0\nstep 2 was fail 4294967295\n",
        "run 1\nstep 1 nobody ask 0 0 file read /x\nstep 2 done attach\nstep 3 held:1 ask 2 255 file\nstep 4 no_query answer 2 1\nstep 5 bad answer 1 0\nstep 6 done answer 1 18446744073709551615\nstep 7 answered answer 1 1\nstep 8 done detach\nstep 9 was detach\nstep 10 was attach\n",
        "run 1\nstep 1 done edit 1 exception_policy aggregator /a /b\nstep 2 not_manager edit 1 manager /c\nstep 3 no_profile edit 2 domain_policy use_profile 9\nstep 4 no_domain edit 2 domain_policy delete <kernel> /y\nstep 5 no_line edit 2 domain_policy delete file read /y\nstep 6 done edit 4294967295 profile 0-COMMENT=x\n",
        "run 1\nstep 1 bad:keyword edit 1 profile x\nstep 2 bad:arity edit 1 profile x\nstep 3 bad:name edit 1 profile x\nstep 4 bad:number edit 1 profile x\nstep 5 bad:address edit 1 profile x\nstep 6 bad:domain edit 1 profile x\nstep 7 bad:condition edit 1 profile x\nstep 8 bad:profile edit 1 profile x\nstep 9 bad:version edit 1 profile x\nstep 10 bad:kernel_domain edit 1 profile x\n",
        "run 1\nstep 1 done end 1\nstep 2 done end 4294967295\ntake 1 0 0 0 denied\naudit -\n",
        "run 1\ntake 1 7 0 0 denied\nlook 0 enforcing no_entry stay - -\naudit profile=1\\040mode=enforcing\\012<kernel>\\012file\\040read\\040/b\\012\\012\n",
        "run 1\ntake 1 7 0 0 granted\nlook 0 enforcing ask make 2,9 yes@8\nlook 1 learning quota stay - -\nlook 1 enforcing not_ready fail 3 -\nlook 1 permissive permissive stay - no@2\naudit -\n",
        "run 1\ntake 1 3 0 15 granted\nlook 7 learning entry:65 enter:15 - -\nlook 9 permissive group:255:1 make 2,5 nobody@18446744073709551615\naudit -\ntake 2 3 0 0 denied\naudit -\ntake 3 1 2 3 denied\nlook 0 none no_manual fail - detached@0\nlook 0 disabled disabled stay - retry@1\naudit -\n",
    ] {
        match printed_again(rt.alloc(), text)? {
            Some(out) => assert_eq!(rt; out.as_slice(), text.as_bytes(), "at {text}"),
            None => assert!(rt; false, "refused: {text}"),
        }
    }
    Ok(())
}

#[test]
fn first_lines_that_cannot_stand(rt: HostRuntime) {
    for (text, line) in [
        ("", 1),
        ("run 1", 1),
        ("run 2\n", 1),
        ("take 1 7 0 0 granted\n", 1),
        ("run 1\n\n", 2),
        ("run 1\ntake 2 7 0 0 granted\n", 2),
        ("run 1\nstep 2 added learn 0 file read /a\n", 2),
        ("run 1\nstep 1 added learn 0 file write/read /a\n", 2),
        ("run 1\nstep 1 added learn 0 file read  /a\n", 2),
        ("run 1\nstep 1 done learn 0 file read /a\n", 2),
        ("run 1\nstep 1 added learn 4294967296 file read /a\n", 2),
        ("run 1\nstep 1 added learn 0 file read /a", 2),
        ("run 1\ntake 1 07 0 0 granted\n", 2),
        ("run 1\ntake 1 7 0 0 allowed\n", 2),
        ("run 1\ntake 1 7 0 0 granted\n", 3),
        (
            "run 1\ntake 1 7 0 0 granted\nstep 1 added learn 0 file read /a\n",
            3,
        ),
        (
            "run 1\ntake 1 7 0 0 granted\nlook 0 learning group:0:1:2 stay - -\n",
            3,
        ),
        (
            "run 1\ntake 1 7 0 0 granted\nlook 0 learning group:256:1 stay - -\n",
            3,
        ),
        (
            "run 1\ntake 1 7 0 0 granted\nlook 0 learning group:0:1 stay - -\n",
            4,
        ),
        (
            "run 1\ntake 1 7 0 0 granted\nlook 0 learning entry:0 stay 1, -\n",
            3,
        ),
        ("run 1\ntake 1 7 0 0 granted\naudit \\101\n", 3),
        ("run 1\ntake 1 7 0 0 granted\naudit \n", 3),
        (
            "run 1\ntake 1 7 0 0 granted\naudit -\nlook 0 learning learn stay 1 -\n",
            4,
        ),
        (
            "run 1\ntake 1 7 0 0 granted\naudit -\nstep 1 added learn 0 file read /a\n",
            4,
        ),
        ("run 1\ntake 1 7 0 0 granted\naudit -\nx", 4),
    ] {
        match read_run(rt.alloc(), text.as_bytes()) {
            Ok(_) => assert!(rt; false, "read: {text}"),
            Err(fault) => assert_eq!(rt; fault, RunFault::BadLine(line), "at {text}"),
        }
    }
}

#[test]
fn steps_that_no_run_has(rt: HostRuntime) -> Result<(), NoMemory> {
    for line in [
        "step 1 done wait 1\n",
        "step 1 done\n",
        "step 1 new:3 make 0 kernel\n",
        "step 1 new:3 make 0 <kernel> a\n",
        "step 1 new:3 make 0 <kernel>  /a\n",
        "step 1 new:3 make 0\n",
        "step 1 made:3 make 0 <kernel> /a\n",
        "step 1 new make 0 <kernel> /a\n",
        "step 1 new:03 make 0 <kernel> /a\n",
        "step 1 new:4294967296 make 0 <kernel> /a\n",
        "step 1 done fail 0\n",
        "step 1 set fail 0 1\n",
        "step 1 set fail\n",
        "step 1 held:1 ask 0 0\n",
        "step 1 held:1 ask 0 0 file  read\n",
        "step 1 held:1 ask 0 0 file read \n",
        "step 1 held:1 ask 0 0 file\tread\n",
        "step 1 held ask 0 0 file\n",
        "step 1 held:18446744073709551616 ask 0 0 file\n",
        "step 1 set answer 1 1\n",
        "step 1 done answer 1\n",
        "step 1 done answer 1 18446744073709551616\n",
        "step 1 set attach\n",
        "step 1 done attach 1\n",
        "step 1 answered detach\n",
        "step 1 bad edit 1 profile x\n",
        "step 1 bad:line edit 1 profile x\n",
        "step 1 bad:arity:name edit 1 profile x\n",
        "step 1 done edit 1 policy x\n",
        "step 1 done edit 1 profile\n",
        "step 1 was end 1\n",
        "step 1 done end 1 2\n",
        "step  1 done end 1\n",
        "step 01 done end 1\n",
        "step 0 done end 1\n",
        " step 1 done end 1\n",
        "step 1 done end 1",
    ] {
        let text = format!(in rt.alloc(); "run 1\n{line}")?;
        match read_run(rt.alloc(), text.as_bytes()) {
            Ok(_) => assert!(rt; false, "read: {line}"),
            Err(fault) => assert_eq!(rt; fault, RunFault::BadLine(2), "at {line}"),
        }
    }
    Ok(())
}

#[test]
fn steps_are_numbered_without_a_gap(rt: HostRuntime) {
    for (text, line) in [
        ("run 1\nstep 1 done end 1\nstep 3 done end 2\n", 3),
        ("run 1\nstep 1 done end 1\nstep 1 done end 2\n", 3),
        (
            "run 1\nstep 1 done end 1\ntake 1 7 0 0 granted\naudit -\nstep 2 done end 2\n",
            5,
        ),
    ] {
        match read_run(rt.alloc(), text.as_bytes()) {
            Ok(_) => assert!(rt; false, "read: {text}"),
            Err(fault) => assert_eq!(rt; fault, RunFault::BadLine(line), "at {text}"),
        }
    }
}
