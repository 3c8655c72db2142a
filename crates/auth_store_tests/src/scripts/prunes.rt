//! Scripts that prune.

use super::{Script, runs_as_said};
use auth_store::script::run::{BAD_LINE, DONE};
use std::test::Fail;

static SCRIPTS: [Script; 9] = [
    Script {
        name: "nine batches on one key are pruned by two chunks, over an MMR",
        lines: "new mmr 0\n\
         open\n\
         put 0000000000000061 1\n\
         commit\n\
         put 0000000000000061 2\n\
         commit\n\
         put 0000000000000061 3\n\
         commit\n\
         put 0000000000000061 4\n\
         commit\n\
         put 0000000000000061 5\n\
         commit\n\
         put 0000000000000061 6\n\
         commit\n\
         put 0000000000000061 7\n\
         commit\n\
         put 0000000000000061 8\n\
         commit\n\
         put 0000000000000061 9\n\
         commit\n\
         len\n\
         floor\n\
         root\n\
         prune 18\n\
         prune 15\n\
         prune 17\n\
         prune 0\n\
         root\n\
         get 0000000000000061\n\
         prove 0000000000000061\n\
         check value 0000000000000061 9\n\
         prove 0000000000000062\n\
         check absent 0000000000000062\n\
         close\n\
         open\n\
         root\n\
         prune 8\n",
        printed: "new\n\
         open 0\n\
         commit 1\n\
         commit 2\n\
         commit 3\n\
         commit 4\n\
         commit 5\n\
         commit 6\n\
         commit 7\n\
         commit 8\n\
         commit 9\n\
         len 19\n\
         floor 17\n\
         root 7f5fb2dc2eab088b080ce26390af3bbe0900d4eda37399f459caee79cb1d2de3\n\
         error S7\n\
         pruned 1\n\
         pruned 2\n\
         pruned 2\n\
         root 7f5fb2dc2eab088b080ce26390af3bbe0900d4eda37399f459caee79cb1d2de3\n\
         value 9\n\
         present 9\n\
         yes\n\
         absent\n\
         yes\n\
         closed\n\
         open 9\n\
         root 7f5fb2dc2eab088b080ce26390af3bbe0900d4eda37399f459caee79cb1d2de3\n\
         pruned 1\n",
        status: DONE,
    },
    Script {
        name: "nine batches on one key are pruned by one chunk and eleven by two, over an MMB",
        lines: "new mmb 0\n\
         open\n\
         put 0000000000000061 1\n\
         commit\n\
         put 0000000000000061 2\n\
         commit\n\
         put 0000000000000061 3\n\
         commit\n\
         put 0000000000000061 4\n\
         commit\n\
         put 0000000000000061 5\n\
         commit\n\
         put 0000000000000061 6\n\
         commit\n\
         put 0000000000000061 7\n\
         commit\n\
         put 0000000000000061 8\n\
         commit\n\
         put 0000000000000061 9\n\
         commit\n\
         prune 17\n\
         root\n\
         put 0000000000000061 10\n\
         commit\n\
         prune 19\n\
         put 0000000000000061 11\n\
         commit\n\
         prune 21\n\
         prune 22\n\
         root\n\
         prove 0000000000000063\n\
         check absent 0000000000000063\n\
         len\n",
        printed: "new\n\
         open 0\n\
         commit 1\n\
         commit 2\n\
         commit 3\n\
         commit 4\n\
         commit 5\n\
         commit 6\n\
         commit 7\n\
         commit 8\n\
         commit 9\n\
         pruned 1\n\
         root 9920295cd7173d248a5c0478176653f53db1d7b22431389e8eb13d921fde933e\n\
         commit 10\n\
         pruned 1\n\
         commit 11\n\
         pruned 2\n\
         error S7\n\
         root 3bae6ab562c781a7c7d89f08c2b4fc2b7b0af18f27da8ac76ad4d4be53a0e71f\n\
         absent\n\
         yes\n\
         len 23\n",
        status: DONE,
    },
    Script {
        name: "a prune asks the device nothing, and a failed store refuses it",
        lines: "new mmb 1\n\
         open\n\
         put 0000000000000061 1\n\
         commit\n\
         put 0000000000000061 2\n\
         commit\n\
         put 0000000000000061 3\n\
         commit\n\
         put 0000000000000061 4\n\
         commit\n\
         put 0000000000000061 5\n\
         commit\n\
         put 0000000000000061 6\n\
         commit\n\
         put 0000000000000061 7\n\
         commit\n\
         put 0000000000000061 8\n\
         commit\n\
         put 0000000000000061 9\n\
         commit\n\
         cut 0\n\
         prune 17\n\
         prune 18\n\
         put 0000000000000061 10\n\
         commit\n\
         prune 17\n\
         prune 99\n\
         prove 0000000000000062\n\
         close\n\
         prune 0\n",
        printed: "new\n\
         open 0\n\
         commit 1\n\
         commit 2\n\
         commit 3\n\
         commit 4\n\
         commit 5\n\
         commit 6\n\
         commit 7\n\
         commit 8\n\
         commit 9\n\
         ok\n\
         pruned 1\n\
         error S7\n\
         error S2\n\
         error S6\n\
         error S6\n\
         error S6\n\
         closed\n\
         bad line 30\n",
        status: BAD_LINE,
    },
    Script {
        name: "a prune before a store is open is bad",
        lines: "new mmr 0\n\
         prune 0\n",
        printed: "new\n\
         bad line 2\n",
        status: BAD_LINE,
    },
    Script {
        name: "a prune before the first line is bad",
        lines: "prune 0\n",
        printed: "bad line 1\n",
        status: BAD_LINE,
    },
    Script {
        name: "what is no line is bad: a prune of no place",
        lines: "new mmr 0\n\
         open\n\
         prune\n",
        printed: "new\n\
         open 0\n\
         bad line 3\n",
        status: BAD_LINE,
    },
    Script {
        name: "what is no line is bad: a prune of a key",
        lines: "new mmr 0\n\
         open\n\
         prune 000000000000006a\n",
        printed: "new\n\
         open 0\n\
         bad line 3\n",
        status: BAD_LINE,
    },
    Script {
        name: "absences and prunes between commits, over an MMR, as a program that was made apart has it",
        lines: "new mmr 41\n\
         open\n\
         put 0000000000000063 50\n\
         put 0000000000000062 11\n\
         prune 3\n\
         put 0000000000000061 28\n\
         put 0000000000000000 74\n\
         put 0000000000000061 39\n\
         put 0000000000000000 81\n\
         prune 3\n\
         commit\n\
         commit\n\
         prune 5\n\
         commit\n\
         del 0000000000000000\n\
         floor\n\
         commit\n\
         put 0000000000000061 11\n\
         floor\n\
         put ffffffffffffffff 36\n\
         del 0000000000000062\n\
         prove ffffffffffffffff\n\
         floor\n\
         del ffffffffffffffff\n\
         prune 31\n\
         prove 0000000000000062\n\
         del 0000000000000000\n\
         check absent 376eac477e3c7bfe\n\
         prove 376eac477e3c7bfe\n\
         commit\n\
         commit\n\
         del 0000000000000000\n\
         put 0000000000000000 46\n\
         commit\n\
         check absent 0000000000000000\n\
         del ffffffffffffffff\n\
         check absent 0000000000000061\n\
         check value 376eac477e3c7bfe 0\n\
         check value 0000000000000063 2\n\
         check value 0000000000000063 2\n\
         check value 0000000000000063 0\n\
         commit\n\
         check value 0000000000000062 0\n\
         commit\n\
         commit\n\
         commit\n\
         commit\n\
         prove 0000000000000062\n\
         check absent 0000000000000062\n\
         check absent 0000000000000061\n\
         floor\n\
         len\n\
         prune 8\n\
         root\n",
        printed: "new\n\
         open 0\n\
         error S7\n\
         error S7\n\
         commit 1\n\
         commit 2\n\
         error S7\n\
         commit 3\n\
         floor 1\n\
         commit 4\n\
         floor 2\n\
         absent\n\
         floor 2\n\
         error S7\n\
         present 11\n\
         no\n\
         absent\n\
         commit 5\n\
         commit 6\n\
         commit 7\n\
         yes\n\
         no\n\
         no\n\
         no\n\
         no\n\
         no\n\
         commit 8\n\
         no\n\
         commit 9\n\
         commit 10\n\
         commit 11\n\
         commit 12\n\
         absent\n\
         yes\n\
         no\n\
         floor 12\n\
         len 23\n\
         pruned 1\n\
         root 07b277220eee5c4a41e4e0d6abfccc299aaa5768aa2ffa8192d65c1935d78ff0\n",
        status: DONE,
    },
    Script {
        name: "absences and prunes between commits, over an MMB, as a program that was made apart has it",
        lines: "new mmb 42\n\
         open\n\
         commit\n\
         floor\n\
         prove 0000000000000063\n\
         prove 376eac477e3c7bfe\n\
         check absent 376eac477e3c7bfe\n\
         del ffffffffffffffff\n\
         floor\n\
         del 0000000000000062\n\
         proof\n\
         prove 376eac477e3c7bfe\n\
         commit\n\
         commit\n\
         check absent 0000000000000000\n\
         del 376eac477e3c7bfe\n\
         check absent 0000000000000000\n\
         del 0000000000000062\n\
         put ffffffffffffffff 79\n\
         check absent 0000000000000063\n\
         commit\n\
         check value 0000000000000061 2\n\
         prune 20\n\
         check absent 0000000000000000\n\
         proof\n\
         del 0000000000000000\n\
         put ffffffffffffffff 50\n\
         floor\n\
         del 0000000000000063\n\
         prove 0000000000000063\n\
         proof\n\
         commit\n\
         put 0000000000000063 40\n\
         prove 0000000000000063\n\
         put 0000000000000063 79\n\
         commit\n\
         prove 0000000000000061\n\
         check value 376eac477e3c7bfe 0\n\
         commit\n\
         commit\n\
         prune 5\n\
         put 0000000000000062 8\n\
         del 0000000000000063\n\
         del 0000000000000061\n\
         floor\n\
         check absent 0000000000000063\n\
         commit\n\
         prove 0000000000000062\n\
         check absent 0000000000000062\n\
         check absent 0000000000000061\n\
         floor\n\
         len\n\
         prune 8\n\
         root\n",
        printed: "new\n\
         open 0\n\
         commit 1\n\
         floor 1\n\
         absent\n\
         absent\n\
         yes\n\
         floor 1\n\
         proof 020102020001b9f349a44b974cccb550e70480b4cfb577e31b9a1e8fde13e9b36b99b10a7ac40001dbc1b4c900ffe48d575b5da5c638040125f65db0fe3e24494b76ea986457d9864dfcbaabc72ad875dee19fa7ab5942cdf4846db929c16a81e76be07fbe979ab500\n\
         absent\n\
         commit 2\n\
         commit 3\n\
         yes\n\
         yes\n\
         yes\n\
         commit 4\n\
         no\n\
         error S7\n\
         yes\n\
         proof 020102020001b9f349a44b974cccb550e70480b4cfb577e31b9a1e8fde13e9b36b99b10a7ac40001dbc1b4c900ffe48d575b5da5c638040125f65db0fe3e24494b76ea986457d9864dfcbaabc72ad875dee19fa7ab5942cdf4846db929c16a81e76be07fbe979ab500\n\
         floor 4\n\
         absent\n\
         proof 01043006000201d68e16946f1e2e20d0298cc049210fdba40f864607d80688b02df39e9a0b8145842df5f29793a58be117844e9581127002efc0019cce4abeacb997988b4fdf00015feceb66ffc86f38d952786c6d696c79c2dbc239dd4e91b46729d73a27fb57e9c310380b8bbf67151744e4230837025403b7b2268ce62637e17977f742a1cbaeffffffffffffffff000000000000004fffffffffffffffff\n\
         commit 5\n\
         absent\n\
         commit 6\n\
         absent\n\
         no\n\
         commit 7\n\
         commit 8\n\
         pruned 0\n\
         floor 8\n\
         no\n\
         commit 9\n\
         present 8\n\
         no\n\
         no\n\
         floor 14\n\
         len 17\n\
         pruned 1\n\
         root 91dc482566b13d1cce7f62c58f486710af1accf62162550ed21c53bcb5bed8fd\n",
        status: DONE,
    },
];

#[test]
fn each_prune_prints_what_it_says(rt: HostRuntime) -> Result<(), Fail> {
    for script in &SCRIPTS {
        let name = script.name;
        assert!(rt; runs_as_said(rt.alloc(), script), "{name}");
    }
    Ok(())
}
