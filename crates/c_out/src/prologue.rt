//! The lines that every program begins with.

ghost use Rattle.std.specs.Prelude.{◌≡◌};
ghost use Rattle.csubset.specs.Text.Prologue.{prologue};

const PROLOGUE: &str = "/* KESO C 1 */
#include <stdint.h>
#include \"os.h\"
typedef uint64_t W;
static volatile uint32_t keso_failure;
#define LD1(r, a) ((W)*((volatile uint8_t *)(r) + (a)))
#define LD2(r, a) ((W)*(volatile uint16_t *)((volatile uint8_t *)(r) + (a)))
#define LD4(r, a) ((W)*(volatile uint32_t *)((volatile uint8_t *)(r) + (a)))
#define LD8(r, a) ((W)*(volatile uint64_t *)((volatile uint8_t *)(r) + (a)))
#define ST1(r, a, v) (*((volatile uint8_t *)(r) + (a)) = (uint8_t)(v))
#define ST2(r, a, v) (*(volatile uint16_t *)((volatile uint8_t *)(r) + (a)) = (uint16_t)(v))
#define ST4(r, a, v) (*(volatile uint32_t *)((volatile uint8_t *)(r) + (a)) = (uint32_t)(v))
#define ST8(r, a, v) (*(volatile uint64_t *)((volatile uint8_t *)(r) + (a)) = (v))
#define DLD1(a) LD1(KDEV, a)
#define DLD2(a) LD2(KDEV, a)
#define DLD4(a) LD4(KDEV, a)
#define DLD8(a) LD8(KDEV, a)
#define DST1(a, v) ST1(KDEV, a, v)
#define DST2(a, v) ST2(KDEV, a, v)
#define DST4(a, v) ST4(KDEV, a, v)
#define DST8(a, v) ST8(KDEV, a, v)
#define SIGN8 0x8000000000000000ull
static W LO4(W a) { return a & 0xFFFFFFFFull; }
static W SX4(W a) { return (LO4(a) ^ 0x80000000ull) - 0x80000000ull; }
static W ZB(W a) { return a & 0xFFull; }
static W ZH(W a) { return a & 0xFFFFull; }
static W SB4(W a) { return LO4((ZB(a) ^ 0x80ull) - 0x80ull); }
static W SH4(W a) { return LO4((ZH(a) ^ 0x8000ull) - 0x8000ull); }
static W ADD8(W a, W b) { return a + b; }
static W SUB8(W a, W b) { return a - b; }
static W MUL8(W a, W b) { return a * b; }
static W ABS8(W a) { return a >> 63 ? 0ull - a : a; }
static W DIV8(W a, W b) { W q = ABS8(a) / ABS8(b); return (a ^ b) >> 63 ? 0ull - q : q; }
static W REM8(W a, W b) { W q = ABS8(a) % ABS8(b); return a >> 63 ? 0ull - q : q; }
static W SHL8(W a, W b) { return a << (b & 63); }
static W USHR8(W a, W b) { return a >> (b & 63); }
static W SHR8(W a, W b) { return a >> 63 ? ~(~a >> (b & 63)) : a >> (b & 63); }
static W LT8(W a, W b) { return (a ^ SIGN8) < (b ^ SIGN8); }
static W CMP8(W a, W b) { return LT8(a, b) ? 0xFFFFFFFFull : (W)(a != b); }
static W ADD4(W a, W b) { return LO4(a + b); }
static W SUB4(W a, W b) { return LO4(a - b); }
static W MUL4(W a, W b) { return LO4(a * b); }
static W DIV4(W a, W b) { return LO4(DIV8(SX4(a), SX4(b))); }
static W REM4(W a, W b) { return LO4(REM8(SX4(a), SX4(b))); }
static W SHL4(W a, W b) { return LO4(a << (b & 31)); }
static W USHR4(W a, W b) { return LO4(a) >> (b & 31); }
static W SHR4(W a, W b) { return LO4(SHR8(SX4(a), b & 31)); }
static W LT4(W a, W b) { return LT8(SX4(a), SX4(b)); }
static W AND(W a, W b) { return a & b; }
static W OR(W a, W b) { return a | b; }
static W XOR(W a, W b) { return a ^ b; }
static W EQ(W a, W b) { return a == b; }
static W NE(W a, W b) { return a != b; }
static W LTU(W a, W b) { return a < b; }
#define K_ActivateTask(t) ((W)ActivateTask(t))
#define K_TerminateTask() ((W)TerminateTask())
#define K_ChainTask(t) ((W)ChainTask(t))
#define K_Schedule() ((W)Schedule())
#define K_GetResource(r) ((W)GetResource(r))
#define K_ReleaseResource(r) ((W)ReleaseResource(r))
#define K_SetEvent(t, m) ((W)SetEvent(t, m))
#define K_ClearEvent(m) ((W)ClearEvent(m))
#define K_WaitEvent(m) ((W)WaitEvent(m))
#define K_SetRelAlarm(a, n, c) ((W)SetRelAlarm(a, (TickType)(n), (TickType)(c)))
#define K_SetAbsAlarm(a, n, c) ((W)SetAbsAlarm(a, (TickType)(n), (TickType)(c)))
#define K_CancelAlarm(a) ((W)CancelAlarm(a))
static W K_GetEvent(TaskType t) { EventMaskType m; W s = (W)GetEvent(t, &m); return s ? LO4(0ull - s) : (W)m; }
static W K_GetAlarm(AlarmType a) { TickType n; W s = (W)GetAlarm(a, &n); return s ? LO4(0ull - s) : (W)n; }
#define FAIL(n) { keso_failure = (n); ShutdownOS((StatusType)255); for (;;) { } }
#define SUSPEND SuspendAllInterrupts()
#define RESUME ResumeAllInterrupts()
#define KTASK(t, f) TASK(t) { (void)f(); (void)TerminateTask(); FAIL(0) }
";

#[tactic(auto, unfolding(csubset::specs::Text::Prologue::prologue))]
pub fn prologue_text() -> &'static str
    ensures { result.now ≡ prologue }
{
    PROLOGUE
}
