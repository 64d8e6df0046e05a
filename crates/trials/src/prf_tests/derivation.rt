//! PBKDF2 compared with another program's: 100 cases of each hash, by Python's `hashlib.pbkdf2_hmac`.
use crate::prf_tests::vectors::expect_front;
use octets::{Refusal, b64_decode};
use prf::{Hash, Sha256, Sha384, Sha512, pbkdf2};
use std::alloc::Global;
use std::process::Abort;
use std::test::Fail;

/// The octets 0 to 255, of which each password and each salt is a part.
fn all_octets() -> [u8; 256] {
    let mut octets = [0u8; 256];
    let mut next = 0u8;
    for octet in &mut octets {
        *octet = next;
        next = next.wrapping_add(1);
    }
    octets
}

/// Cases, each in base64url: five octets and the key. The octets are the start and the length of the password in all octets, the start and
/// the length of the salt, and the count. One text is proved much sooner than a list.
const SHA_256: &str = "\
    EQDLAAH3zgtlPS1ypBCM9avpEv_dd3YW27snpw6CBPOuLQ9vrYn2j0gR0eh7zDvXQAqf_SkJTwGEY5V085rloTFSF7zX \
    bgGRCAKf \
    Cz8JPDJGB4XQIPbl613Tn4SZmtCOYT-uhHzjhIQPk0oog027RA \
    dkAaMgNVPgwG \
    ikF6OyblYKmATML7Pls \
    JX8DFA8JDkMSIY_XYR7PYtkpqxMZ_afPbi7J1GVzx7zilHTzkRen-1dS9UH0TWrwWyb541aw \
    OoDZHBHsilI9mkhOHh8scFukD3WaFTYJcZxlIRAz1QQVJE6CbmIzISYK5BTnoEXC7vuk \
    VYEKCxuJl1hp32BZKMPKKt04xbKZi5rGhx1rh2L1OsjGY3GKHl60FYfiuiRY7aHtFXggXhequj1pWuNl \
    GsgPBgJaDLORMM_pzghBh-InOHz8JrMOh9BwPtVY3Bkp3wtcgqdBQz0Dl8h6cFB6Sg \
    oUs-FyNohqbx1tiqcnLueS-f4HYmqu0wWC9FPjt6XU3OMM2SbdX3DBAzGTxCTLAHAdRPH5FETA \
    Z2xOHAk3ybEXv07bct1mYy1EaCXxAxQQLaap0cg0eBQ9347nEqcuqauENEUcn-5FC91WcWdh \
    BVCTLyb1vsyDSu5sM46OxibAnEFlyCcEKaE5Nl4euj36iKmkc50B2b3uNgrC07LGtSWe4UqZWVA \
    cDA0GBSJUdjGzzXg5GT4tkLkLK7S7QMXpxOLFap72DBCPfZGx6HjJhEl \
    SSrBBjH5HAszPnDYcLjYGvtFPpnO2vjeHlaNh2w9XS31rz2VNOzDMmMdr_rN0Ns \
    Rok9IwSFv3jgwUC1kq-WbmPlVSpoBgseQml8c1o2ZQ2XaAh0ZPt6i9NdDr-dV3JKZbUdsrT4TTZo_amqvhM \
    fTsHOSwFN0WogIA7LsTuwI6KkBjUnnX9Wv2cZDpmF1KM93hG \
    5RObFg_WE_F8kJmOKIZwR4fc2prntt1-kkUSpyb7B0XTCYK2t2v-9XD-7dJU \
    egYsCDA_zEab3w3Md_yhn9nGxibUPceNR1mnaNdwbdfrNxgV4Cqy21yvQEF59sJoGQHPmwZ1 \
    SUGULi_kZ7nEzaq1HzYtcgV7rQ \
    XBqhJBn3OpeTD2iJQ0efwwSvzRheiiaBYKYRHLg9gnCZ \
    KZpMKCxZ75NMcch_rZEe \
    IsFIKxGnPQhTIZKVLJpZvl8kuk7HY8pUDJeqBC5n-O4nsQmoNevv \
    EHOMKglOIKwJcsBf01vaB8peGtM-pqCCBCufo8o \
    1QN-CBfmMA \
    rQ2GBgo2lkNDm4rU479j53jc0eH0MEqG5qKU8vApi8lyWEI1958yOg \
    XSgaBhg2 \
    GZ9VMxXHBxIYek4uQsg75xbryQGTQMd2O1l-MPDi6owwsMFlja3eRX4nSfc6fYcxAQ \
    BlptDDILPfkMdDof5w \
    fUnGMBXI5NYNpypozZPAs5lcFmSYbLiWv5fBQz63-6GO6GDAFxl35Oss1l4oogFC0_s \
    fW0LAzAyRueqFkqq7O3eQ2zpYlAsJ3fEyCpRmXTQrMmNujDitX1oQ1Ev8LQqGQ \
    M6mHHAToonZW8Bnd2VqLLDGthlbJI6fd-2Q5d0k6EXOrl6g \
    fIQRPA4g4wBAThg \
    0hhGMw8GqWPuGf-fhiBoEw \
    YHiFBgcpPjv7KvQfArCYgL3mwK6483YpsoFz528a \
    I2VDHybETJHQthTzjlikeWsR6IDc_4_mnKyumWT3jtCR91MvHhamTzSfKlw3NwWRcYarcXUxrg \
    lwiyCwId3KZMbNTVUchAvHUBWcYrvWVcMTL15LnxAPMmH0kJ \
    njKgHBkeUHqlQ-hNDbaXuT-gVdxliT96ahHee_tb0svEYo2Ca3fW-aLmpWzF9YrT3lUKyAlHfse8E5IE \
    cnV-OyhIcZUIypuOCb8ssYEQ7cw \
    NwoDAh4VdAgiIoP_R6mXYCL9 \
    FKCfCBVBJv5qEcauQz_vrn2B0S19tqRjzS33aW7BW36aXw_Z8Af7Kb2gxd_GYzCXp5-gOQ \
    Xj9MIxIadlsahJZ8ytIvpeSvh1vQ3n1N9uzGrBA7AMlIot12tpbtuuariseDqxO_ \
    1RO6AxjrjW7Be06VzrRGkmvaNGPRv7gpXsFmTQdBP5dcEtvqpfxgeT9Y \
    QBWbHCe1zJZnEmPZHUY \
    T62yDBiRbhJ4WPK3aKP7sEuA4zG-jrI3G7uByzcxPSXsgGPKmXEw6Q \
    EiWuFC47Uc8FJXnQdcJx9ecTnYRY9dC9r_MGPvwT41yX-jJ0LpQ17CD2v90snVqnyCpk \
    qDcRFgH9WS3qsRUm \
    H2fAJB_Vz3u3A7pPQkKmQ8Mtc5U0N9-Zsw \
    P6gLGSa52ZczYoWC8DT78dqiMafiqpz_ssUb06ZvBT-uYkn2CfGG4figNIk \
    kkhCFQRVSPf6eBQzWWMUfZ4BZy71 \
    D68SASSSEHrI4M03KbgDncReBR_rJhzsjr5lXf0hYFAzWWfHyg \
    VQmfMhoMjhFVhxBct9DTBheFdV-XNRzkzoowkRsbAiikE8XkO1L2FBgJ9Jg3MkyD-y26HQ \
    TJEYNQRqGew \
    PigwNDJJdRJdSXfsebNMNACdsc49eCCww38IhWSci6BNf_MNV6DjNoXk4pun_ESM \
    IVEsOBp4GlbYumg1k7RNEFxQe19lqK-mgNPeDguoF-eT-7XY1A \
    1xUoLinp8UkinCSV8CxkulV2SmAqRqn5rBUP4sNc2YFoSqk__1Dfl5R8AQEjgLF_M5aW \
    eyVXMhWsel_3OL1aTy6Rmq1Eown7AZugcSnP4J1-huXP_dh7kOS7BpQ \
    VJvWDy36nE6fNsC_dFY \
    qlZAKQ027YQHHDFutNhbhY0sMRLgC0VeWWxsaUjI5uD5SpU \
    Ug04HhOKEMzrb6mvLaAAOnN8b3m5XTwgEmV2alEvhlpAMIx8vQ72ohZFWDea \
    g2QrFxdvWPPqs7SOmYvsIVcBn_vDVZL4uoB4NH0IzW-XgOnwAtkCHHBp4KPIwfdBSCBKncB_k_osa_p5ceqnaO8 \
    C6VtIx2wnSdRt9WxCuXFbbSop5Ts8DFqJrdvwA8B8gBavdoZ5-c8fuM \
    A50uFxhulI4MjHQfcKDJesWaSgMrwEqWKkZI6BgM7OxxM6zHlLPipdEmI_3_GYaSesjR6Oq7oiPnTsRg8ZUSbQ \
    VI0DKB2McnRtLITocC94a7-MieMyoi7xSTkAxlWU-jGpaUC8ym_Zc5yOJNqfilXjC-CiCCV8jZejeNGfbosXayVF0Rg \
    OjsdIC5WhewRGqj2U1n5eXKA4jTw \
    JHk7Cx5GNOXkscd_dusWuVRvgqApQpnCTLIvsaBO9NZ996pOkTsPmtFii1kSBB_o \
    KrQ_IiUX_613wlDo4cvC84S1Bfh70v22wXpU \
    cClDKQFPwLzOeXK6JGluqMXEAsCS3lnuIFMokbQGmSC4A56Anc6CQ38yN0JlU5zdLODgeqZohhbd2g \
    NKfCGxCLminQI8qkRH3Pl-Ko8sAjzNENV1lmtIFwFsJAc_61KBrCU3XM5p3OEIzBLug \
    EFgtIC0FxlhuOKjVr47w2l9xSfzKQ4k \
    FFI8EB86TWUrmKekWs1S \
    BH86FAtE-s6etoZWEB9bTX3PbqK0pbXtFhKhY2EKmWXMde0fMsXEQ2Cj4wEGPiLX9Kz1DHar4Q \
    GS5FKyEzu-z9Z6NnMKrX80QGELvK9NK8dU7D2OMZ41LUm_AfbzOVhb6eT5NFGi8sy1qT \
    tQ8AARQ9 \
    ZoScGS_xAw8Oiso8gNouyQAY57yYc9WuQrunsdm21Sew5KHP05NhBJYchnLRxw \
    GD2NOiXexSM \
    gV9hKCKxDkQGExc8_bqEQrnpG_jm \
    CDybCBOIAmtSmIg5CDtTZL___0Zzjz4rwzC- \
    Q7t0FycWZNqji58GToQoY-TD0CU5nB4xdILX4cxpYKTXJcY522LOcN4Vt48n_HK7WVZqbI7hxb8q \
    SEVSKjJK1zCxPI3XUHF9pibSdwWv8qJ3 \
    BiypIw3nV68gNfnLunjspxQCebmRtmnuPlnriiSASabdw0Q \
    gUMIBQnotghmvNu-Bt56YhCA7jdwYoqcFzPnfxIjpjvh0anOikYX \
    ZYB3FQUkyQDPewn1Ux7Yqeswcg \
    AxJOLjHTvLOjr9lJuFMv6stKSyrMXiCNALu-1vcSJ5yDXeRx2hxwspLHFDsHJLKf \
    viVwNgOJP7Ulsgh6qbG_PKWFCCz1qzl6NYRQkiS65fdHIUCvrMQ \
    ZwVbAS2eHrDdYj0rCBseeRGEFvUR2MrpqA \
    MSfYJRlBv0C3aI8a8jxNrp6HYZ6bcEp2LZxA \
    H47NCyz9pg_2YLJabEMa0XD0JfRUL-SbLPmkWwwXsp0QeyRtVmnH3i-n4iyFXCTMDiQ \
    NzvTFAHxw8_sB-YmlYJRQ6mruHvpH7RY5lGJFbafkpPOHHQ \
    DIO8LgfWepIfN_OyL1OwUETLBgyZ_doQr7AGUn8 \
    GVggKA41gg \
    FAFTAxuyu-BA8JkdltbqDyy0BSzRbCqL-nssOZUVLeut12Z8ROQ \
    WqZHASzRcw6_9Tk \
    JWZKJSBKZC4T1MSYAd4xfuWd9WaTG-K3T5Fo7-s6ocvhanLAh34 \
    kAHWIi5Ny3v6-Jbq1mIgWv4_2sAqKHZF-x5yvAQwoxeqKWUzgnJX54T70JOnVemG2eGph3Mf19W2QarNpHWo4A \
    CcPnBx-BNAtTrMo8H9URPdQsrdCaIM3bif3Om5O6hw \
    JkkGLQTXk6OBiViG \
    dYbCAiwy7vP8ru7XO8g_GvyKZA3n9R--uTj7NxIqE5ATAr99gCe37hvAPJtW3fgUVcLejL_K6SUBMoJHNcDY9TI \
    XZ9aLRhpHUQGbsY0-ugWR4H8D52Ee6AFNCt46gJinxdrVABu7NOro45Lh6DO5kb6OLQBIr4 \
    QnsJJB3B7Q1HUb0LaxiDSgBng2aBptQNdDHpCx8dkyJ31JuKOaiRpm8PdI2bkyFDJRMDk5QSu5lRfLRpknVtrz5b \
    FrJgDwH05kK5qQm5Snmp-pTRUTQE3laYFqOZGKaNkBM8ZOgDxjocEF1Y2qfr_zPiVTtUdWkwFObKRYMfJ2KxUnAl0v0";

const SHA_384: &str = "\
    cABDAAFLsEKlwozub2b5kccX_XcCZ3h-K7MDHq4nDYfWOtmVNPcIc7_I94uRTHE0l1z-yyQs1w-b34HcV5ui7YlsizRT \
    ewHZCAIs \
    LD-LPDJXOn9kTDWhaFI8MVYha_qE2W5Y0QO_HwTz7dE12SADqksFD9u9aTVGvTNo3NahuCU \
    MUDAERg3JFyber_deR5FlRRJVI7A3hiRMuMjCL0ti1jhWWVuiFEl0kBMkZJUX29IJgd-D_mbUT7LDX1cF9S_Qi-z \
    ekEsAxvoj_EayrQyW6UiYZyFzXw_S_4O4uhA8w2hEGRcIYBM1Rsk-3qoTYlqfA \
    eH-yMxeAow \
    f4BFGgbOgMM9VmFvL4RClw \
    W4HJLA3QR_-Cr34ZkswmyOht8BOpkojmipb-ufAa3qvJSv0PMgJy5Kp4eik \
    KcjZISr309bjCy0XXPvnjWNQ0qyKWisdD7PDnvo2zNFK_LYcusMKcMZ-MXiQ1LSRYbHtSVgCnNwUFIHHgqt73UTa \
    LMFeMhRMZp7TE2THpOaN-C3cW9ECrmka6wqd2ScV18T0ziAVFM2O9w \
    tUv8ABAjd9-qYeID7kLjVXF2uWhO1s4LgJm3bs23SNRcm96dbqeVUWus4aLxRyzc2_i3MEPpnHH8Bdp79hvZcOxlWGQ \
    gQ8IBwbWzf8NLY8pCIIjWKjeJ6SViMNeDT_R3rL4IYzWIA \
    oQ8MEyRPyqNs9ReAx_mZyjc \
    iASLJghkSOfIU00RUUCo75ebb4w \
    8wR9Hix09YIKF5FoxPf4gNTi3UYhHJkSeBJ1FTo \
    C8AGDiWN5RXr3czMmk6lH86iN1iM2uDb3jhmfJQnu8kEvGtdY7fEOH8 \
    VYoEKigOZ7A0hBfgB3KFXonVIIaEqgrrJ7b_wKefMd2Y58HKR0la1rvpyFFuQwb_VC8OabxQZsjDxw \
    n0erByAg5-Dg \
    iUO0IxS480M1rLRK5C-dnntHslny0t-fwgp8wmhzIhb-irjM \
    XIs5ER_gV7o5x0NvVQoVGhN7NR1LaI2rbtxDFU_za0zv3gfVig \
    Z3-VCikLAB_yUWs \
    chS0OhPOAQ3uxXezEeMvMq8nXqo-lUY \
    H5hENBQ0jycvhtoCqoaMXxRDNcCw7J_wO6j93gZ43sEd6KG7Re8spYQxXg \
    RwvOEBePGlbr \
    Nma9Fy863zr5Kd1g80a2ar1PW9s9KtP0CHzwjz9Q2GZ6wk-LWYFlFVCpVpXKcClXKw \
    RmqhGh5Q-QnuF1uxAZZEw6H9kxvb \
    CnI5KQHRksuoV3p6ocRfCvrKdFlvUMOKgQHzMkXjLgiQE0w4-pE \
    YxySKQrGGoD_gPB2L1Wg5EflMQ8 \
    W6ISLg5SaljMj8xluwy_5gAjxp-_vJ4fy2lXOOzEhn9pjeO9PsxPyOJfCpZaG9-142l66vucOG70ZVbIvm-HkxnoLcc \
    FcYtBDCF1eqXObDZzTbruCKH8LQXXoKDvMThjcOMFrmsK6lXjV_jHXfz-VNj7sEapNWag6A \
    NH0mBgz2t_SoEy8QmJQ \
    TTocDwRzE3BueC6B2xC8hbg8HJiFgrRsBnCjEUWRVCennKHiv4HUofGTjOsAJnV7nZvlUQ \
    AVS8IiCX8Q \
    B7BsNy2pq9ovUR9J5ilWQfhWsT1b \
    K4l3Gh1fap9uyiQV-pWWAJeAEjMSNZpW \
    8A06ChVN3AX3 \
    BSZvKynAHuXgIFm0gA \
    mWcdBAq8FuaAoFNcXpce1iamVOomuDJ5yszDBP2MRthy \
    Qx-XNgww9sJovCAtI5UfMyPM8aHLGn8G80Pmpi3qpsZB-4cI7fky-Mub56Qzd2Dr0bUQQqvJ6po \
    CMjUGAtg0UsMKTDdoJY7IfgCekPTnxtW04tQtWMt-18GeQB7 \
    oy4YKS9jLaNYrkPLy1II5kgtkYaWDI2KT3v0NjYPWNpydlhq78BHwXpz6N9NkDo \
    bBbMDgd6EO572jodHnLYWz1PvLENrefYD0MISEp7OV0ZrJ7HxdcN5C9TVbviBCnosUxLim7p \
    K5NdNg76BQg9F3zl7yRNAiUXajWHCs2qX1rmuZZAdZzNCeJZu17SXWYiLcwnMURIOu6C_7XBa3LuqCrsxyC9Gg \
    wSa7LyTfD0PatKEMaUKvVWhhns1oy0UTbiS5B2lpQdY \
    UH4gCjCQ7WB5qfTs2CCywCiRVd6wXxyae-ijmA9UIPB7hzbnvoz6B1mwnumstEw6V5ys9SW83XXURvs \
    SlE9Ly8-t_XLlv6QUEmdNd47ArOuVP5YjqTPxaSNaRbrrePgQeS56PGlk_ZHppII \
    a2YGBCnHwQaiBPZV7Tbp-fNC6ew \
    JJzTKS14YDCcKvsmatWB_sWwRDf0SqFD-3Bv5qvVnFoGzvlJEF33kvLlOQE3KUV0FNYtfWM_Y-ziH0UJ4NsMab2jmQ \
    WlGtOR9UYm9LqfQ \
    MqSkOAu8FNK6M__LQNmjhnRSIHod8w \
    an14BQhWBvgPywUiz370d3j6Y5j4_zM \
    OqlNGhSTBmcJAIWoOrkoe2ny6qBJrpqx4_qKl9dxEcaJBGr1bl_lol5Ke_dDQaErICwO5IhPklItI0eczHGReE47Nls \
    GomfACwdyPD004wTMUnvrEw_IiiRuHzVJQgv7ZHQ6Cb0hx4-Rnhdc--Bqlj3wHvRUhLdptecN3ZTubLs4Wg \
    bAmaKhBnnmQ3AJCQT8TTab3eBJ0nDLScGo-HZ6Pvdg \
    thEoJirw51RbjGpECQSLqiFlPt9nCYXR-nVnREm0bMcvZP0GUB_RYWKuEGszlIFM33F-SnqOzyE \
    kW2VFCBh9JxRLgbv38WTUVPnG5qEIRlG-6hhvQtvfmAMSx0cNs2c_mApvJrgCZKfYMWrd3pNzIXJtZXopw \
    QJAyKgOcH9iWEjrnwOTIr-rkX1PHjwJGQsrxQGkoqqYSvSfjGhCwDF2nRvM0DxKWPBH4wy8HPkDU \
    e28fOgTOBsNKpBZIXjyQ \
    bESsGgtZRTMUOgEF8x57vYCulg \
    D8CuCAa58AbGpFCeQzTnmRV5m1JyEDZn2_KtViKH3qtKkTFrC10T3RGdr1VbnCvI1rA7hDCzhuau8ehuXA \
    Iq28Ag34c5FtivsNYL4UTSNXwuVGru-3yI9HUqrWKtvRvlRhx7Xy-dlbHa2a \
    amBJLy9ADV3g6Ka92I1EbCBf7J-xB5wWq4_WV3invG7yON_R42PBvjXZsdo \
    JV1MDynxSYZ9UWNDvWdXIwAhW4K3mELQYWc5uNqy7u1gopdA \
    IUF2HhEy3kEaAnkSuVoHMdQliB0Bh_L6k-stMqULzY8i6XmW9dBossaHb594hKgPLjVIczrJ1lHHQynCAUks5dKvdQ \
    VXaXCg5iWOTW7jIusOMnK3bnQOFqUqUcpYc \
    qCMeKQJi8eiQ53AyaO9QK2UUErucNix4I_4Ziso5y-BYOVSA83eV9LVO6sNBKg \
    JwV0MBWqynAWS8xJzUEIXpEHP7CiWAC2YxXhDnxWXuBH \
    IWcmIghY5Qw \
    SCpqHA5P3ochxJQ \
    HxndGwvCmepBeu_ZFilSBX787w_2QaiMlw1iuyT1b8YzSVtsD8bufpWouCleRWfk \
    KpoIMAIDPaBaDUHVI70T2nDdAt5hkEP5qhMCfeuD4Bd0XHLr3AtfAenMutKEKIT6z7sTTEwwlA \
    VI6WFhK0TkMrGZa9f6cGC2n68783iUfYL96bREKG69r3Ayk6TA \
    AobSJgUd3nx2_XbTpbJPK21lR0VUsPho_FiYTBaw8AhkQFTBnXY \
    EL0sLikG3t2aVA_ec8f6vxe7wObmtDD8V_LV6XWkDrgPfds \
    XlFKGwT3QU0KaShmTOWQGFJluyF9YG_K0cBZ9ELYzns \
    PBmcFy2TFz-7b80sRwSvL6qEALWP4nLAunEr8j8Lv5MMPjBSw8pgP3CJgbYo-AZs2e_dUmM6hZBy8CU-Rok \
    fnq5Gw_LvV_PFCXI2YZjQwmDaAQ \
    YYKhNAk9dVbUyYh49k9H_aXIQnz6Rhbdmxw0UfaUCjo88xL6oB8f0JT_znDGjqT6vVsTSOWk8vPHg1OUFXIccZ2U \
    aWeRKikniCcHqPJRja7TFrNE-ek4fnO0 \
    SlZJFx56bvekVW3xejLcjKPkCWvSNtoRl2ZS2VMpIBpgdotzaMA \
    YFu5KCE47C5TNpSCbzplhBl5Pf06KhpopzNpqlBGn46SS1PTlsrGR1Qffd0y42ztS5Lx \
    Ma0IPB8fAs-ReB8ehGTCzdfgDvjUCIHTBjilr3OhV3r4rJFHGDI43vcyByWFoyMeCy4w \
    PklFHy7m1tXmE_k6wmNRarcl16wHbqgoUp9fbkix2xU \
    Or-JFhZLZX9e-IMknFhqJslTQlkp4qlz7hHgTyUqfiwPOKMqjWnBeCZeWA \
    Rp87MwY3jWNbTmEQjKsKSG3cx5xrT6L8RH5OfUbZPA04oWDiXxdWQtP5pJ640drYDQ \
    KE3CMAcRqWliiit24ngtBcfqp8DU5RCgMQjBx8uJ8OFo9oa4jh5OK6pw0i3iPfelQJhG2VWjSyrUHfE- \
    FlZ7HhxlHB0jZRLIZzyUTRo \
    JJbTCRzo6moK_-4zEzztiCRz_VA3jA \
    aICOFhy9blu0GbJF1rHfEwj-5nKS64vpBkjpfP-6T6CSSNp3_ch8lN8o \
    boE9Niuhojvp0VfaXjRGbRwKJu2ocF9mUcU7KsX3F08lmdkD4Lko6Q \
    DDg5ASiTwZuWW_aCoty5a1K6xypyVZe1NiCUn7CuzPoJMkfVrA \
    6hHQMC6PnqHMrFlqUqdpdFo6XXAwojjsarJfvpwrc2xe \
    rUiUCBtyOO-3PO_5jKkm-gluzeIUAHpEurFk4nf05JZVupvinkzcGSpc \
    B0p3MAN0mjGUWslH7V4WHKyO6Npr7cVAoc4GIQLgOCabm4ZltMWMg5d4jA \
    BHB7EQnz91TRFZ7fCvkbLRCa3jZX5i80jmY3VhpeInGGW3L-ZPYxIihyEvkrLCExCoWT0J52ZTDzHdM_FntqLw \
    TFBWFwoELU5zy0h_DpY6BpqSij3uQHmHO7KltSkuJTGyPwcXrnbHxuXSRdEg0g \
    X5jPESIA9dE7GQyhtEuSb9nXtbCVJ0dB0F9jDCCecPI0BlElyPzR0hz07NrrLWRe7yiPttSN8tjvb1c9R4Z_Etrr \
    A1ggJgKm-vieEFo4MFqWjvK79G7sqLXT7mY83s35WQdOikyGQo6FYABt7hefyQ7JlrVy9qe00ShRoj5Z2-nB4g \
    L2GtOg_FNKxhnUuF4X0SyuJ6Cyxo0EVofis \
    Dn-sEwZ7kYC4NmattJglyIwbszI3BvcYlAXFVsbBNgZGOss";

const SHA_512: &str = "\
    twDKAAFtLsu7-y5tzXBW-vmvaqBurllDkduYMnmmvyfg6yKGFDqwyZbzPKS2Z-lFgp6mkzQPKDF5cyTl8x3xjtFx0YyX \
    BAHTCAJa \
    sj-mPDK3kMxaBUJg4iJl27GKzy3iRbFIdYtjGwvsl_Ozq_DOD0kTNpQRkVf7mVoLJGN0eK_vgskXbTIc7r1d00oX8ehq \
    pkC9DB8KITLtgGvKhRj4WU4L_eS4_szyaUInPCH6 \
    iUE9MiTqlHrmrHKOsSbC8lKpOXDtxG8sjrEcm11A \
    Yn8KJRbL0nAK7ofxYjq2MfR_Z2ez1lD_hinHwv3cNjVy_fJZtKG3aifWiyyf2Rs \
    BoAfERX-BjwDOOYruv8i_J_5ju0RozRLGFw \
    RIGTMApGrmNiiow39XhpssqnB-3ZUQxOOg6u_CGgT6gNwb-FWlcn1571SdGtCNQqfgRQs4HwxNMZCIPiXbg \
    EMiiESJjmUfWQuDgSp2jzvbH74y0REzeneK4xWdIIcmpW2KaEcfbBOToXuj3fN1ueshy6JdDge8MhK99kX0 \
    E7JEBx6KEHpGaFiKdPkFV463aISuvpd11RaIgehglo8 \
    J5CtEB6e1HuiiIKbbEh6F2tfrW-gr4ylDQOyf1Bgu6JQHoS0Zob_Zk6gPohqb5vxGm9U3boq \
    EEi3JBfIHLWxYWu0yfDs-uUHNGPhxWtTGr1BXvEsNOlwB0N075YNjg0JLQDK0LIRTsyYoIVl8xYyFLsgF_XjyOM \
    PkHPEwYt4vqdVyui35WSL1JSmvImXhnIdzhxe9kE_SU8opJF2Z27m6KGrTJ12hqKbgGXxh9bmF3x \
    OIpOGQKBethVZ-EeUL5CSw \
    ELhxMjJbofkj2_iXE5-PgcsdNHpCRJOgsSOXlUg3jjFybplctXhVTuhxAaxKx-oAcRoA3vNZTipEerLD0fiFEfQOCQ \
    WAKsNSHYXXH5XetLmDsD9hjQjoiAMV4INk3Sj5Qv-p7E-MciqVmh53ZXZmc \
    fII-IBo8dmAaBUTwYSScVKCasr9XpdU \
    BLorDi3y4qCKWpKS_RueXA \
    riURLQRM8oB84KUJzClSUbSc1sqXlNR3SJIZ_qADQSjLwKveefOMpsL406dEQNo2OMOLUBMfOz4oUdtaQ3dQgfPxeJA \
    SlGLOBR3QOTNmVs \
    0QlOGB4VSeepFKPCSqokNFVPJu1GZ7guqX-2 \
    RkRaICLLoQ \
    m1azKS1ctHUNm5v1isPKPS-HhGlFajQyh49iW7_x8dDJezNCxOcPwRb9X7LpL6Q5Qw \
    IxPjAAyjXmMGucK3 \
    TKeaFBYqDKHYxQKOjCA0a8Rcg4t6iZcTnisEY7VOrPvWOZkAcMJjtzmUxD7cjwQ \
    PlUzDAHKHHsjTq8lCaG5DQEbGt8OGMhZup4_IGhw \
    YX6XAwVKyy1gk3SSuWO1iSJspChIiwtCwWEb4X9Q1nWGcgpmKFbvBH3mgHgi0Lint7gaMyhGPaF8Bg \
    sTRDChYZU6JQ_PMQsi0hWSw3gVwurw \
    DroWBgNS6xsaj03TSdgkAlxWWGAGka_HyoIFt4BnXSbw11qeZl2DPQ \
    GHcoBSXXUD8 \
    CIVJLSZIYNrD2WHoMDR88ixr0ZzueZf1RPRcAmeWYdd14HRP5VhEEFOF8XubV91Gyd7AB6nt124MRA \
    oRZ_ChHpvPfr \
    uh6-FCu5kN5YW9fV45j_BxiPOLOxF7f5ZYJfVMRxkoaB_YrQzR5IKlRiPUSOllUYg7jm0IuHGE10YT5t3Q \
    vzYiBCxUO4Wcb5sWU8_cYU3BN3zSJnXNBU3zEIW1p02hprE_CyfBjtq6TFkkUXQ \
    UoLOFynim__OZZWD-ZR7LY2Dkp53uVFW \
    cniKOgxrRMb8EYic8crPSLhvZtTFtyHEMRBF5X9_n8Z5veH2R58xsRNGt8R5vPIreHDMl40uuF16TJc0E-OxL355OFg \
    WYY6FBDDkq07pdh2_bxuRWr_LNKq9_ngk_fafOU6oTMKpLs \
    NrOmLCWppJb1SqqGu_lflVne1w \
    HgJdNyOESDukJqHnS5ZNQ3FBWgvtWF64KtfVPv3KIQ \
    enOhLw3HHxldp2SmRGFFlwGDTQ \
    Pp8THSHh_nKhkhKXUrTkYFolGFg5MqRCcoataSs741j8lvxq0GKei1YmG2rbLZkW2vRytA \
    mlbrBxIxMkiHc-Wgrty00x6TC-Zoj5uLdLfweNCOzcw0M2XxjLxlkNgPMoX7NIdYEZz6m6new_BdqpI8J_I \
    QKMwKCJl6XwrAiS7OWqvCRBFBrb8yts \
    AyJVFw_5qhXpsYpk-MENsGcMD_2sEVcEIb8tVBnCr2U3UVmlWeB0pPLui5nwbIUVeISdbLDEwJbvEsJkZu7ZFNkwVw \
    MqCoBy6-72QyeVTa \
    QDeEExYQprrOkhYWbw9_wN8fq0NRimZtQByCpgzMjdEIdXniGRThMFc4grKoIH2QaglPH7xASg \
    dxRhDjAmVqG6ewKs36xKoRjNp0Mgm6hAQ5pnJe6zbHbLKc8CtlcCmn5yMJ5G-XoJUGc \
    ywRtFQ0Z-a3_-boF80mlTP5V2GTUAM3E5w5cX7ohB9MLCSiHBjrzsztui1FL \
    gT8xCR5851VVyF2jWkad \
    HlF8HDL4lJgR5f01 \
    OcUMEQskdL0Fsa4MZPhB2Tv69-3vKOwF9E8v5bh33o9ZbsNNX8TBCIFC \
    CCNBPApeSrnow9EMAvd-VUM3Cg \
    aUNmEDAHYdqw1QJofG-AyeL8imMZe5UGDy_Zk7jHhccz \
    4BtKARiJojAS2PoHEvqusejZvXO79uoT5MGN7DfRwsKaxzi6TEEWL6OsEoP2R2Q \
    C6ZIHSeBYuPMKa7yQj9XNAKZlA \
    uymeEhoA-7OC4eszuB1BFCg-xgXpCycekiTT5Ep3mCQ3rcP0o0F8Jo0 \
    V5lbLQrOaJ4OpDkJqMMGivPhUGET63dVKGHWnVqGkc7hIY1r5KwnXhzTE0X4Uj-8 \
    KcieARgrs0VhSfcOV3pAgg_yrY7ctfcLsgGJs28XfBJyopre9_AjgXJr6efbAhZS592gzw \
    kBlvLiW7r_yAL72az4SnCPxOz0jbddAV931EifZZd1b8TOTyjnGDqad39NXcnw \
    XYl-Oh43OVKXuqzvAb6eqnIYBiWH1SyosqYmhJAstwHOqHJ0-ZOnYOeZEAuM \
    KF2bESw9m_qjkgGm7eDKW19-XAxuTEhFFtWwDL5Q2VGKmDEqdb0Itls6PdDc9FSYt9XvEEdEuQtP3Q \
    ZmXQEwzPfK9gU7itgnNZJEKFAucfJyIrmqbafQ \
    AMJxFBXNQ89nkMg65sy1TMjE0pV-gbR4y0Pa8WBXyRzjXqRWdttOvx80pSgut1M \
    AqtwKRpa4OutHEI6Qtg4zHNjF9-iruaiQRdQHRnQ600qiFR4PsN8vy6IFmH8p-5oQGhHE2fPs05D21SwKHXUASATKMA \
    FqrDGRp8Esil83Qv1FWIwEZ3EGILrLaCk0xpv-GjeU8hI95sQyr97Cb6 \
    fAe6Mx3Txuu_5zOi2h7qqabIT1Ze5VdR1TUuGHMZk5yFO8txGj9pfo-OsWpPPg \
    K74RPAfYczt-FnEpku7ALuaRih6H7bPIFfxW0P70qteR5XHzMt8TJA \
    TIwhARM8zxra \
    D8WwLRsFmOOyWgikjrg8FsVwq1JS-z6OT6CRALP0fYV9sDacLabVOFATApyOF8ntXsnNWmrTtC8uIlUI \
    BhCTOiDxjNGZq27oJyR-F4_cG0uaRL5qA9TtSG9ypHJ5rjLcE8mBbg6TSu7tnLW57eUAhgG5UfM \
    BLRGHg29sA \
    T4baGQ3UpYU56EJUsp-AZCffiDs4d1Diw3hbtslCikBa-k-brZbYs797_G4OEK0aC-o \
    UEAHICVFVZpjCJgLiFkQgVN8 \
    KGSbCzLFX_f3pJnM \
    Ua-lFiqWlhsXYBCzsBZ8F85lAyd33GVm8cR9QlQJqjydNIvk_kiUtynm84Rbhq91bxc \
    pE21MQNZzhfeKsF2JfDF-kEJAXMpWQ \
    YzBkKSYAgP2Td8jkRKqQRQiwtgF0ccI41cDapFcd2CLHVzdX7bZMaH_mNk-pYjVdCA7pZ6iYDkfF3qdB \
    C0cHNxIDeOsYFe1MfYSQYzUm-RTRG91mwamsIA \
    h3Q6NDBojaMJIcAHHPCNAhe37HiI_UaDuAIyaCIotHkjTTcGVpUTkrh0ZdvzqqHleTglsnE \
    IoToESTILf0-fBCxIQiVBNLg \
    QLNJFyhcdbxcAQmy0gNS_axpcrAGEvoG_evtS31cWHaOhGMaLg \
    RagnMwU0HyigmO6FyQgQkMLf2ULyelotwfjE6vTEg3f1vGmNXlbF0RZVAnDXrvSkHinHgFfdjfSzXKJzUxI \
    BozrBha9_lk3b4evdb3x1g \
    gWLHHCvjssmI8C5NLttj0q6n_rnIoQRBGjLa-QuhNT70vj1jCIby \
    QXs2JCgVAg-SiJ77wrb_SlAeuqbSYtcCj8xHsoH7AlqZUL4XtZSFia1t0Y-jmysQUg7HMgom7vTJHlQXbUTj6A \
    LJheEhOuyv9oY50-uUjkK0jeaQ21mk6L7B__w3Fo8kcQxhwHzuq2IVmU9UaLFQ-2LvwbVA \
    BLu-MAiIAEwmSn9mzr6OS4BjjBD2nYQAPk_ktHhfBHIOgLS4PtiJhnDp7ZRVvjgbUcOcGg \
    jmYFHBSa_pd1y2IrRMgbQMsOMmEFUQEhJyosOT_lQSwo4GjS \
    ErFAChIyzYR8MF-VGuSsE635LSV5aWIidqqKJUSb29OWNOuqBbYKGbF-RtespUmxdwkgIl8phdtISGY \
    FzVmGhpc6M1ayX3_FfzD9w \
    jEgqOA0zkz55-Fr4a5D5-sAOlJq8_QGmNkWZXOMsO8mUD3MpBVDyUQHGQ4NRAV4Po66BTexuOLRrOg \
    d1eGJwbwIANNm_1mOBefu5A54jQQl2yAfK19l70YcQs \
    EV-6Aw6FgNchEOsNM_iDZqJNJv5qsab9KQZYuU79tDReyCdYQ2gbpwW6BceizK-fIsZT1-MehsCmwXzWPzM \
    SiDILSB9VlzUITc \
    ErsuPBN4uyFXeLvCyd1iBa0Z_6CYKS6G9Oc2PNpM4lsn4KV6IEw0XYt5z_3FAPMSRez3dQ \
    OsNCOx-eRNTgXywiQSnp9exZsZ3l8IlYWZOlcLQ \
    TheaBwEaIIhe0XOim4xHd5i1sgA1p42adbaDSq8aQk8LCa8 \
    Rq-WKBxqY2hPhbuU8aR--BrZZ25iRlSMX4H4pmBIGZqCDw \
    JpMiPBGZah43nOthZqsMR_dJli-40TTDjZATVA \
    V6aqNRWrFIeWUhhIlx7o";

/// `len` of the octets, from `start` on.
fn part<'o>(rt: &impl Abort, octets: &'o [u8], start: u8, len: u8) -> &'o [u8] {
    let (start, len) = (usize::from(start), usize::from(len));
    octets.get(start..start + len).expect(rt, "as many octets")
}

/// The case has its key.
fn expect_case<H: Hash>(rt: &impl Abort, octets: &[u8], case: &[u8]) {
    let (&[start, len, salt_start, salt_len, count], key) = case
        .split_first_chunk::<5>()
        .expect(rt, "five octets");
    let password = part(rt, octets, start, len);
    let salt = part(rt, octets, salt_start, salt_len);
    assert!(rt; count > 0 && key.len() <= 64);
    let mut out = [0u8; 64];
    pbkdf2::<H>(
        password,
        [salt, b""],
        u32::from(count),
        &mut out[..key.len()],
    );
    expect_front(rt, &out, key.len(), key);
}

/// The cases have their keys.
fn expect_cases<H: Hash>(rt: &impl Abort, alloc: Global, cases: &str) -> Result<(), Refusal> {
    let octets = all_octets();
    for case in cases.split(' ') {
        expect_case::<H>(rt, &octets, &b64_decode(alloc, case.as_bytes())?);
    }
    Ok(())
}

#[test]
fn pbkdf2_by_another_program(rt: HostRuntime) -> Result<(), Fail> {
    expect_cases::<Sha256>(&rt, rt.alloc(), SHA_256)?;
    expect_cases::<Sha384>(&rt, rt.alloc(), SHA_384)?;
    expect_cases::<Sha512>(&rt, rt.alloc(), SHA_512)?;
    Ok(())
}
